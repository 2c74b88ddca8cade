//! How funds are made.
ghost use Rattle.std.specs.Prelude.{◌≡◌, pos, ◌+ℤ◌, ◌-ℤ◌};
ghost use Rattle.book.specs.Funded.{fund_if, meant_fund};

use crate::funds::Fund;
use rules::bounds::MOST_AMOUNT;

// Kept by hand: no `Default` is derived for a type that keeps a fact about its fields.
impl Default for Fund {
    ghost is_default = { λ x. x.amount ≡ pos 0 };

    fn default() -> Fund {
        Fund::none()
    }
}

impl Fund {
    /// Nothing.
    pub fn none() -> Fund
        ensures { result.amount ≡ pos 0 }
    {
        Fund { amount: 0 }
    }

    /// So many centavos. `None` where it is below 0 or above 10^15.
    pub fn new(amount: i64) -> Option<Fund>
        ensures { meant_fund result ≡ fund_if amount }
    {
        if !(0..=MOST_AMOUNT).contains(&amount) {
            return None;
        }
        Some(Fund { amount })
    }

    /// Both amounts together. `None` where that is above 10^15.
    pub fn checked_add(self, other: Fund) -> Option<Fund>
        ensures { meant_fund result ≡ fund_if (self.amount +ℤ other.amount) }
    {
        Fund::new(self.amount + other.amount)
    }

    /// What is left when the other amount is taken away. `None` where that is more.
    pub fn checked_sub(self, other: Fund) -> Option<Fund>
        ensures { meant_fund result ≡ fund_if (self.amount -ℤ other.amount) }
    {
        Fund::new(self.amount - other.amount)
    }
}
