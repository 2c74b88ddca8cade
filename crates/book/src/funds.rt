//! Amounts of money that a holder has, or that a trader is granted.
ghost use Rattle.std.specs.Prelude.{pos, ◌≤ℤ◌};

pub mod counting;

/// An amount of 0 to 10^15 centavos.
// Kept apart from `Cash`, which is such an amount in another range: public functions ask nothing of their callers, so that with the range as a parameter
// no constructor could make 0, which not every range holds.
#[derive(Clone, Copy, Debug, PartialEq, Eq)]
pub struct Fund {
    /// In centavos.
    pub amount: i64,
    ghost low: { pos 0 ≤ℤ amount },
    ghost high: { amount ≤ℤ pos 1000000000000000 },
}
