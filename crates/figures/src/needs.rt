//! What is needed behind a client's positions, and what its collateral lacks.
ghost use Rattle.std.specs.Prelude.{◌≡◌, ◌+◌, ◌≤◌, true, ◌&&◌, map, pos, ◌-ℤ◌, ◌≤ℤ◌, IfSome, int_le, unsigned_abs};
ghost use Rattle.cells.specs.Listed.{listed};
ghost use Rattle.figures.specs.Sums.{floored, smaller, those_below, total};
ghost use Rattle.figures.specs.Figures.{mark, loss_in, margin, need, deficit};
ghost use Rattle.figures.specs.Markets.{market, answerable, fair_cash, figure_if};
ghost use Rattle.figures.specs.Positions.{positions_of};
ghost use Rattle.figures.specs.Worst.{Worst};

use crate::accounts::Account;
use crate::answers::answerable;
use crate::cash::Cash;
use crate::counting::Together;
use crate::markets::Market;
use crate::position::Position;
use crate::positions::Positions;
use crate::tally::{greatest_by_row, sum_of};
use scenario::ScenarioModel;

/// What is owed of the day's settlement, not above 0.
fn owed(cash: Cash) -> i64
    ensures value { result ≡ smaller (pos 0) cash.amount }
    ensures small { unsigned_abs result ≤ 10000000000000 }
{
    cash.amount.min(0)
}

/// What `a` has beyond `b`, not below 0.
fn beyond(a: i64, b: i64) -> i64
    requires { (unsigned_abs a ≤ 100000000000000000) × (unsigned_abs b ≤ 1000000000000000) }
    ensures value { result ≡ floored (a -ℤ b) }
    ensures small { unsigned_abs result ≤ unsigned_abs a + unsigned_abs b }
{
    (a - b).max(0)
}

/// Margins, less what was gained, and with what is owed.
fn needed(margins: i64, gained: i64, cash: Cash) -> i64
    requires { (unsigned_abs margins ≤ 8192000000000000) × (unsigned_abs gained ≤ 10240000000000000) }
    ensures value { result ≡ floored (margins -ℤ gained -ℤ smaller (pos 0) cash.amount) }
    ensures small { unsigned_abs result ≤ 20000000000000000 }
{
    beyond(margins - gained, owed(cash))
}

impl<'a, M: ScenarioModel> Market<'a, M> {
    /// What is needed behind a client's positions: the margins of all subportfolios, less the marks, and with what the client owes of the day's settlement, not below 0.
    /// `None` where there are more than 1,024 positions, one of them has no market price, or the settlement amount is beyond 10^13 either way.
    pub fn need(&self, positions: &[Position], cash: i64) -> Option<i64>
        ensures value { result ≡ figure_if (answerable self.now.prices.now (positions_of positions.now) && fair_cash cash) (need (M.ScenarioModel.table self.now.model.now) (market self.now.prices.now) (positions_of positions.now) cash) }
        ensures worst { IfSome result (λ x. Worst (M.ScenarioModel.table self.now.model.now) (loss_in (M.ScenarioModel.table self.now.model.now) (positions_of positions.now)) (λ lost. floored (lost -ℤ total (mark (M.ScenarioModel.table self.now.model.now) (market self.now.prices.now)) (positions_of positions.now) -ℤ smaller (pos 0) cash)) x) }
        ensures small { IfSome result (λ x. unsigned_abs x ≤ 20000000000000000) }
    {
        let few = answerable(self.prices, positions)?;
        Some(self.account(few, Cash::new(cash)?).need)
    }

    /// The margins of a client's positions, and what is needed behind them with what the client owes of the day's settlement. The positions are gone through once.
    /// A contract that has no market price counts at a price of 0.
    pub fn account(&self, positions: Positions, cash: Cash) -> Account
        ensures margins { listed result.margins ≡ map (margin (M.ScenarioModel.table self.now.model.now) (positions_of positions.entry.all.now)) (those_below (M.ScenarioModel.table self.now.model.now).subportfolios (λ _. true)) }
        ensures need { result.need ≡ need (M.ScenarioModel.table self.now.model.now) (market self.now.prices.now) (positions_of positions.entry.all.now) cash.amount }
        ensures small { unsigned_abs result.need ≤ 20000000000000000 }
        ensures floor { pos 0 ≤ℤ result.need }
    {
        let tally = self.tally_of::<Together>(positions);
        let margins = greatest_by_row(self.model, &tally.rows);
        Account {
            margins,
            need: needed(sum_of(&margins), tally.gained, cash),
        }
    }
}

/// What a collateral lacks of what is needed, not below 0. `None` where the collateral is below 0.
pub fn deficit(needed: i64, collateral: i64) -> Option<i64>
    ensures value { result ≡ figure_if (int_le (pos 0) collateral) (deficit needed collateral) }
    ensures small { IfSome result (λ x. unsigned_abs x ≤ unsigned_abs needed) }
{
    if collateral < 0 {
        return None;
    }
    Some(needed.max(collateral) - collateral)
}
