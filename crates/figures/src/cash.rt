//! A client's settlement amount.
ghost use Rattle.std.specs.Prelude.{◌≤◌, unsigned_abs};

pub mod setting;

/// What a client receives of the day's settlement or, below 0, owes of it: within 10^13 centavos either way.
// Kept apart from the book's `Fund`, an amount in another range: `none` makes 0 for every caller, so 0 must lie in the range, which const
// parameters cannot say and a public function does not require. So each range is a type with a fact of its own.
#[derive(Clone, Copy, Debug, PartialEq, Eq)]
pub struct Cash {
    /// In centavos.
    pub amount: i64,
    ghost fair: { unsigned_abs amount ≤ 10000000000000 },
}
