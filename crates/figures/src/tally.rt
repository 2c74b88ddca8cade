//! What positions have gained, and what they lose in each scenario of each subportfolio: a row of sums for each subportfolio.
ghost use Rattle.std.specs.Prelude.{◌≡◌, ℕ, ◌*◌, ◌≤◌, true, [], map, slice_index_or, unsigned_abs};
ghost use Rattle.cells.specs.Listed.{listed};
ghost use Rattle.figures.specs.Figures.{mark};
ghost use Rattle.figures.specs.Sums.{total, greatest_below, those_below};
ghost use Rattle.figures.specs.Losses.{loses_in, losses_in, at, Added, Holds};
ghost use Rattle.figures.specs.Markets.{market};
ghost use Rattle.figures.specs.Positions.{position_of, positions_of};

use crate::bounds::{MOST_SCENARIOS, MOST_SUBPORTFOLIOS};
use crate::counting::Counting;
use crate::markets::Market;
use crate::marks::gained;
use crate::position::Position;
use crate::positions::Positions;
use crate::rows::{Row, add_losses, greatest_among};
use cells::rows::Rows;
use scenario::ScenarioModel;

/// What positions have gained together, and what they lose in each scenario of each subportfolio.
#[derive(Drop)]
pub(crate) struct Tally {
    pub(crate) gained: i64,
    pub(crate) rows: [Row; MOST_SUBPORTFOLIOS],
}

impl<'a, M: ScenarioModel> Market<'a, M> {
    /// Counts one more position, whose place in the model is asked once, and gives its mark.
    fn count<C: Counting>(&self, rows: &mut [Row; MOST_SUBPORTFOLIOS], position: &Position) -> i64
        requires { (k s : ℕ) → unsigned_abs (at (slice_index_or rows.old k []) s) ≤ 1000000000000000000 }
        ensures value { result ≡ mark (M.ScenarioModel.table self.now.model.now) (market self.now.prices.now) (position_of position.now) }
        ensures small { unsigned_abs result ≤ 10000000000000 }
        ensures losses { (k : ℕ) → Added (slice_index_or rows.old k []) (slice_index_or rows.new k []) ((M.ScenarioModel.table self.now.model.now).scenarios k) (λ s. loses_in (M.ScenarioModel.table self.now.model.now) (market self.now.prices.now) C.lost k s (position_of position.now)) C.most }
    {
        // Kept apart from `map_or`: what follows changes the rows, and is more than a value of the place.
        let Some((k, multiplier)) = self.model.place(position.contract) else {
            return 0;
        };
        let mark = gained(
            position,
            multiplier,
            self.prices.ticks_of(position.contract),
        );
        add_losses::<M, C>(&mut rows[usize::from(k)], self.model, k, position, mark);
        mark
    }

    /// Counts positions.
    pub(crate) fn tally_of<C: Counting>(&self, positions: Positions) -> Tally
        ensures gained { result.gained ≡ total (mark (M.ScenarioModel.table self.now.model.now) (market self.now.prices.now)) (positions_of positions.entry.all.now) }
        ensures small { unsigned_abs result.gained ≤ 1024 * 10000000000000 }
        ensures losses { (k : ℕ) → Holds (slice_index_or result.rows k []) ((M.ScenarioModel.table self.now.model.now).scenarios k) (losses_in (M.ScenarioModel.table self.now.model.now) (market self.now.prices.now) C.lost (positions_of positions.entry.all.now) k) (C.most * 1024) }
    {
        let mut rows = [[0; MOST_SCENARIOS]; MOST_SUBPORTFOLIOS];
        let mut gained = 0;
        for position in positions.all {
            gained += self.count::<C>(&mut rows, position);
        }
        Tally { gained, rows }
    }
}

/// The greatest sum of each subportfolio's row.
pub(crate) fn greatest_by_row<M: ScenarioModel>(
    model: &M,
    rows: &[Row; MOST_SUBPORTFOLIOS],
) -> Rows<i64, 8>
    ensures { listed result ≡ map (λ k. greatest_below ((M.ScenarioModel.table model.now).scenarios k) (at (slice_index_or rows.now k []))) (those_below (M.ScenarioModel.table model.now).subportfolios (λ _. true)) }
{
    let mut greatest = Rows::new();
    for (k, row) in (0..model.subportfolios()).zip(rows) {
        let _ = greatest.push(greatest_among(row, model.scenarios(k)));
    }
    greatest
}

/// The sum of a figure of each subportfolio.
pub(crate) fn sum_of(figures: &Rows<i64, 8>) -> i64
    requires { (k : ℕ) → unsigned_abs (at (listed figures.now) k) ≤ 11264000000000000 }
    ensures { result ≡ total (λ x. x) (listed figures.now) }
{
    figures.as_slice().iter().copied().sum()
}
