//! What the losing ones of some positions lose in one scenario.
ghost use Rattle.std.specs.Prelude.{◌≡◌, ◌≤◌, unsigned_abs};
ghost use Rattle.figures.specs.Figures.{losers_in};
ghost use Rattle.figures.specs.Losses.{lost_alone, loses_in};
ghost use Rattle.figures.specs.Markets.{market, answerable, figure_if};
ghost use Rattle.figures.specs.Positions.{position_of, positions_of};

use crate::answers::answerable;
use crate::counting::{Alone, Counting};
use crate::margins::lies_in;
use crate::markets::Market;
use crate::marks::moves;
use crate::position::Position;
use scenario::ScenarioModel;

impl<'a, M: ScenarioModel> Market<'a, M> {
    /// What a position loses in a scenario of subportfolio `k`, 0 where it gains or lies elsewhere, and at a market price of 0 where there is none.
    fn loss_of(&self, position: &Position, k: u8, scenario: u8) -> i64
        ensures value { result ≡ loses_in (M.ScenarioModel.table self.now.model.now) (market self.now.prices.now) lost_alone k scenario (position_of position.now) }
        ensures small { unsigned_abs result ≤ 11000000000000 }
    {
        if !lies_in(self.model, k, position) {
            return 0;
        }
        Alone::lost(
            self.mark_at(position),
            moves(self.model, position, scenario),
        )
    }

    /// What the losing ones of some positions lose in a scenario of subportfolio `k`, with no help from the gaining ones.
    /// `None` where there are more than 1,024 positions, or one of them has no market price.
    pub fn loss_in(&self, positions: &[Position], k: u8, scenario: u8) -> Option<i64>
        ensures { result ≡ figure_if (answerable self.now.prices.now (positions_of positions.now)) (losers_in (M.ScenarioModel.table self.now.model.now) (market self.now.prices.now) (positions_of positions.now) k scenario) }
    {
        let few = answerable(self.prices, positions)?;
        let mut sum = 0;
        for position in few.all {
            sum += self.loss_of(position, k, scenario);
        }
        Some(sum)
    }
}
