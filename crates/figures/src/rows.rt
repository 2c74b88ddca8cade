//! Rows of sums, one sum for each scenario of a subportfolio.
ghost use Rattle.std.specs.Prelude.{◌≡◌, ℕ, ◌*◌, ◌<◌, ◌≤◌, length, unsigned_abs};
ghost use Rattle.figures.specs.Sums.{greatest_below};
ghost use Rattle.figures.specs.Figures.{moves};
ghost use Rattle.figures.specs.Losses.{at, Added};
ghost use Rattle.figures.specs.Positions.{position_of};

use crate::bounds::MOST_SCENARIOS;
use crate::counting::Counting;
use crate::marks::moves;
use crate::position::Position;
use scenario::ScenarioModel;

/// Room for a sum for each scenario of a subportfolio.
pub(crate) type Row = [i64; MOST_SCENARIOS];

// Kept as premises: how many sums there are, here and in `count_in`, since the front of a row is lent, a slice; the sums' bound here, in
// `add_losses`, in `count_in` and in a market's `count`, since a row is lent out of a larger table and its sums are small only while they
// are added up; the mark's bound here, in `add_losses` and in `Counting::lost`, since a type with it would be made in `gained` and at each
// mark of 0, and opened again wherever a mark is summed or given out.
// Kept `as`, since `enumerate` counts as usize: `(0..scenarios).zip(row.iter_mut())` was tried, and what such a loop leaves in the row
// stayed open.
/// Adds what a position loses in each of the first scenarios to its sum, in as many scenarios as there are sums.
pub(crate) fn add_each<M: ScenarioModel, C: Counting>(
    sums: &mut [i64],
    model: &M,
    position: &Position,
    mark: i64,
)
    requires { (length sums.old ≤ 64) × ((unsigned_abs mark ≤ 10000000000000) × ((s : ℕ) → unsigned_abs (at sums.old s) ≤ 1000000000000000000)) }
    ensures { Added sums.old sums.new (length sums.old) (λ s. C.lost mark (moves (M.ScenarioModel.table model.now) s (position_of position.now))) C.most }
{
    for (scenario, sum) in sums.iter_mut().enumerate() {
        *sum += C::lost(mark, moves(model, position, scenario as u8));
    }
}

/// Adds what a position loses in each scenario of subportfolio `k` to its sum in the row.
pub(crate) fn add_losses<M: ScenarioModel, C: Counting>(
    row: &mut Row,
    model: &M,
    k: u8,
    position: &Position,
    mark: i64,
)
    requires { (unsigned_abs mark ≤ 10000000000000) × ((s : ℕ) → unsigned_abs (at row.old s) ≤ 1000000000000000000) }
    ensures { Added row.old row.new ((M.ScenarioModel.table model.now).scenarios k) (λ s. C.lost mark (moves (M.ScenarioModel.table model.now) s (position_of position.now))) C.most }
{
    let front = &mut row[..usize::from(model.scenarios(k))];
    add_each::<M, C>(front, model, position, mark);
}

/// The greatest sum of a row, 0 where there is none.
pub(crate) fn greatest_of(row: &[i64]) -> i64
    ensures { result ≡ greatest_below (length row.now) (at row.now) }
{
    row.iter().copied().max().unwrap_or(0)
}

/// The greatest of the first sums of a row.
pub(crate) fn greatest_among(row: &Row, scenarios: u8) -> i64
    requires { (1 ≤ scenarios) × (scenarios ≤ 64) }
    ensures { result ≡ greatest_below scenarios (at row.now) }
{
    greatest_of(&row[..usize::from(scenarios)])
}
