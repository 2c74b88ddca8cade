//! The market prices of the contracts.
ghost use Rattle.std.specs.Prelude.{◌≡◌, ℕ, ◌≤◌, length, Some, codes};
ghost use Rattle.figures.specs.Priced.{priced};

use crate::bounds::CONTRACTS;
use std::fmt;

pub mod reading;

// Kept a table by the contracts' numbers, and no map: no call of a session allocates.
/// The market price, in ticks, of each contract that has one.
#[derive(Clone, Copy)]
pub struct Prices {
    pub(crate) ticks: [Option<u32>; CONTRACTS],
    ghost long: { length ticks ≡ 256 },
    ghost low: { (c : ℕ) → priced ticks c ≤ 100000 },
}

/// A price is 0 or above 100,000.
#[derive(Clone, Copy, PartialEq, Eq, Debug)]
pub struct UnfairPrice;

impl fmt::Display for UnfairPrice {
    ghost output = { λ _. Some (codes "the price is not 1 to 100,000 ticks") };

    fn fmt<W: fmt::Write>(&self, f: &mut fmt::Formatter<W>) -> fmt::Result {
        f.write_str("the price is not 1 to 100,000 ticks")
    }
}
