//! How a settlement amount is set.
ghost use Rattle.std.specs.Prelude.{◌≡◌, pos};
ghost use Rattle.figures.specs.Markets.{fair_cash, figure_if};
ghost use Rattle.figures.specs.Settled.{settled};

use crate::bounds::MOST_CASH;
use crate::cash::Cash;

// Kept by hand: a derive gives no value for a type with a fact about its fields.
impl Default for Cash {
    ghost is_default = { λ x. x.amount ≡ pos 0 };

    fn default() -> Cash {
        Cash::none()
    }
}

impl Cash {
    /// Nothing to receive and nothing to pay.
    pub fn none() -> Cash
        ensures { result.amount ≡ pos 0 }
    {
        Cash { amount: 0 }
    }

    /// A settlement amount. `None` where it is beyond 10^13 either way.
    pub fn new(amount: i64) -> Option<Cash>
        ensures { settled result ≡ figure_if (fair_cash amount) amount }
    {
        if !(-MOST_CASH..=MOST_CASH).contains(&amount) {
            return None;
        }
        Some(Cash { amount })
    }
}
