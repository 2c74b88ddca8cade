//! Whether figures can be worked out for positions.
ghost use Rattle.std.specs.Prelude.{◌≡◌, true, false, MatchOption};
ghost use Rattle.figures.specs.Markets.{all_priced, answerable};
ghost use Rattle.figures.specs.Positions.{positions_of};

use crate::position::Position;
use crate::positions::Positions;
use crate::prices::Prices;

/// Whether every position's contract has a market price.
fn all_priced(prices: &Prices, positions: Positions) -> bool
    ensures { result ≡ all_priced prices.now (positions_of positions.entry.all.now) }
{
    positions
        .all
        .iter()
        .all(|position| prices.has(position.contract))
}

/// The positions, if they are few enough, each with a market price.
pub(crate) fn answerable<'a>(prices: &Prices, positions: &'a [Position]) -> Option<Positions<'a>>
    ensures { MatchOption result (answerable prices.now (positions_of positions.now) ≡ false) (λ p. (answerable prices.now (positions_of positions.now) ≡ true) × (p.all.now ≡ positions.now)) }
{
    let few = Positions::new(positions)?;
    all_priced(prices, few).then_some(few)
}
