//! The risk of positions that may go to any client.
ghost use Rattle.std.specs.Prelude.{◌≡◌, ◌*◌, ◌≤◌, IfSome, unsigned_abs};
ghost use Rattle.figures.specs.Figures.{losers_in, open_risk};
ghost use Rattle.figures.specs.Markets.{market, answerable, figure_if};
ghost use Rattle.figures.specs.Positions.{positions_of};
ghost use Rattle.figures.specs.Worst.{Worst};

use crate::answers::answerable;
use crate::counting::Alone;
use crate::markets::Market;
use crate::position::Position;
use crate::positions::Positions;
use crate::tally::{greatest_by_row, sum_of};
use scenario::ScenarioModel;

impl<'a, M: ScenarioModel> Market<'a, M> {
    /// The risk of positions that may go to any client: summed over the subportfolios, the most that the losing ones of those which lie there lose in one of its scenarios, with no help from the gaining ones.
    /// `None` where there are more than 1,024 positions, or one of them has no market price.
    pub fn open_risk(&self, positions: &[Position]) -> Option<i64>
        ensures value { result ≡ figure_if (answerable self.now.prices.now (positions_of positions.now)) (open_risk (M.ScenarioModel.table self.now.model.now) (market self.now.prices.now) (positions_of positions.now)) }
        ensures worst { IfSome result (λ x. Worst (M.ScenarioModel.table self.now.model.now) (losers_in (M.ScenarioModel.table self.now.model.now) (market self.now.prices.now) (positions_of positions.now)) (λ lost. lost) x) }
        ensures small { IfSome result (λ x. unsigned_abs x ≤ 8 * 1024 * 11000000000000) }
    {
        Some(self.open_risk_of(answerable(self.prices, positions)?))
    }

    /// The same risk of positions that are few enough. A contract that has no market price counts at a price of 0.
    pub fn open_risk_of(&self, positions: Positions) -> i64
        ensures value { result ≡ open_risk (M.ScenarioModel.table self.now.model.now) (market self.now.prices.now) (positions_of positions.entry.all.now) }
        ensures small { unsigned_abs result ≤ 8 * 1024 * 11000000000000 }
    {
        let tally = self.tally_of::<Alone>(positions);
        sum_of(&greatest_by_row(self.model, &tally.rows))
    }
}
