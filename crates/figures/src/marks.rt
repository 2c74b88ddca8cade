//! What positions have gained since they were traded.
ghost use Rattle.std.specs.Prelude.{◌≡◌, ◌≤◌, pos, ◌-ℤ◌, ◌*ℤ◌, IfSome, unsigned_abs};
ghost use Rattle.figures.specs.Figures.{mark, moves, value};
ghost use Rattle.figures.specs.Markets.{market, has_price, figure_if};
ghost use Rattle.figures.specs.Positions.{position_of};

use crate::markets::Market;
use crate::position::Position;
use crate::products::{scaled, times};
use scenario::ScenarioModel;

/// What a position has gained at a multiplier and a market price.
pub(crate) fn gained(position: &Position, multiplier: u16, ticks: u32) -> i64
    requires { (multiplier ≤ 10000) × (ticks ≤ 100000) }
    ensures value { result ≡ position.now.quantity *ℤ pos multiplier *ℤ (pos ticks -ℤ pos position.now.price) }
    ensures small { unsigned_abs result ≤ 10000000000000 }
{
    scaled(
        position.quantity,
        multiplier,
        i64::from(ticks) - i64::from(position.price),
    )
}

/// What a position gains in a scenario of its subportfolio.
pub(crate) fn moves<M: ScenarioModel>(model: &M, position: &Position, scenario: u8) -> i64
    ensures value { result ≡ moves (M.ScenarioModel.table model.now) scenario (position_of position.now) }
    ensures small { unsigned_abs result ≤ 1000000000000 }
{
    times(position.quantity, model.shock(position.contract, scenario))
}

impl<'a, M: ScenarioModel> Market<'a, M> {
    /// What a position has gained, at a market price of 0 where there is none.
    pub(crate) fn mark_at(&self, position: &Position) -> i64
        ensures value { result ≡ mark (M.ScenarioModel.table self.now.model.now) (market self.now.prices.now) (position_of position.now) }
        ensures small { unsigned_abs result ≤ 10000000000000 }
    {
        let ticks = self.prices.ticks_of(position.contract);
        self.model
            .place(position.contract)
            .map_or(0, |(_, multiplier)| gained(position, multiplier, ticks))
    }

    /// The mark of a position: what it has gained since it was traded. `None` where its contract has no market price.
    pub fn mark(&self, position: &Position) -> Option<i64>
        ensures value { result ≡ figure_if (has_price self.now.prices.now position.now.contract) (mark (M.ScenarioModel.table self.now.model.now) (market self.now.prices.now) (position_of position.now)) }
        ensures small { IfSome result (λ x. unsigned_abs x ≤ 10000000000000) }
    {
        if !self.prices.has(position.contract) {
            return None;
        }
        Some(self.mark_at(position))
    }

    /// The value of a position in a scenario of its subportfolio: its mark and what it gains there. `None` where its contract has no market price.
    pub fn value(&self, position: &Position, scenario: u8) -> Option<i64>
        ensures value { result ≡ figure_if (has_price self.now.prices.now position.now.contract) (value (M.ScenarioModel.table self.now.model.now) (market self.now.prices.now) scenario (position_of position.now)) }
        ensures small { IfSome result (λ x. unsigned_abs x ≤ 11000000000000) }
    {
        Some(self.mark(position)? + moves(self.model, position, scenario))
    }
}
