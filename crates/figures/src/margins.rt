//! The margin of positions in a subportfolio.
ghost use Rattle.std.specs.Prelude.{◌≡◌, ℕ, ◌*◌, ◌<◌, ◌≤◌, length, pos, ◌≤ℤ◌, IfSome, unsigned_abs};
ghost use Rattle.figures.specs.Figures.{lies_in, loss_in, margin};
ghost use Rattle.figures.specs.Losses.{lost_together, loses_in, at, Added};
ghost use Rattle.figures.specs.Markets.{few, figure_if};
ghost use Rattle.figures.specs.Positions.{position_of, positions_of};
ghost use Rattle.figures.specs.Worst.{Greatest};

use crate::bounds::MOST_SCENARIOS;
use crate::counting::Together;
use crate::position::Position;
use crate::positions::Positions;
use crate::rows::{add_each, greatest_of};
use scenario::ScenarioModel;

// Kept as functions of a model, here and below, and so are `moves`, `add_each` and `add_losses`: a margin needs no market price, which a
// `Market` has.
/// Whether a position lies in subportfolio `k`.
pub(crate) fn lies_in<M: ScenarioModel>(model: &M, k: u8, position: &Position) -> bool
    ensures { result ≡ lies_in (M.ScenarioModel.table model.now) k (position_of position.now) }
{
    model
        .place(position.contract)
        .is_some_and(|(at, _)| at == k)
}

/// Counts one more position, where it lies in subportfolio `k`, in as many scenarios as there are sums. Its place is asked once.
fn count_in<M: ScenarioModel>(sums: &mut [i64], model: &M, position: &Position, k: u8)
    requires { (length sums.old ≤ 64) × ((s : ℕ) → unsigned_abs (at sums.old s) ≤ 1000000000000000000) }
    ensures { Added sums.old sums.new (length sums.old) (λ s. loses_in (M.ScenarioModel.table model.now) (λ c. 0) lost_together k s (position_of position.now)) 1000000000000 }
{
    if lies_in(model, k, position) {
        add_each::<M, Together>(sums, model, position, 0);
    }
}

/// The margin of positions that are few enough. The model is asked once how many scenarios there are.
fn margin_of<M: ScenarioModel>(model: &M, positions: Positions, k: u8) -> i64
    ensures value { result ≡ margin (M.ScenarioModel.table model.now) (positions_of positions.entry.all.now) k }
    ensures small { unsigned_abs result ≤ 1024 * 1000000000000 }
{
    let mut row = [0; MOST_SCENARIOS];
    let sums = &mut row[..usize::from(model.scenarios(k))];
    for position in positions.all {
        count_in(sums, model, position, k);
    }
    greatest_of(sums)
}

/// The margin of positions in subportfolio `k`: the most that those which lie there lose together in one of its scenarios. It is not below 0, since nothing moves in scenario 0. `None` where there are more than 1,024 positions.
pub fn margin<M: ScenarioModel>(model: &M, positions: &[Position], k: u8) -> Option<i64>
    ensures value { result ≡ figure_if (few (length positions.now)) (margin (M.ScenarioModel.table model.now) (positions_of positions.now) k) }
    ensures greatest { IfSome result (λ x. k < (M.ScenarioModel.table model.now).subportfolios → Greatest ((M.ScenarioModel.table model.now).scenarios k) (loss_in (M.ScenarioModel.table model.now) (positions_of positions.now) k) x) }
    ensures small { IfSome result (λ x. unsigned_abs x ≤ 1024 * 1000000000000) }
    ensures floor { IfSome result (λ x. pos 0 ≤ℤ x) }
{
    Some(margin_of(model, Positions::new(positions)?, k))
}
