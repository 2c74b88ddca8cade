//! Rounding to the nearest whole number, halves away from zero.

#![tactic(auto)]

ghost use Rattle.std.specs.Prelude.{◌≡◌};
ghost use Rattle.rounding.specs.Rounding.{parts, nearest, Nearest, Agree};

/// What a sum of exposure times factor shock is divided by: shocks of factors are in ten-thousandths.
pub const PARTS: u64 = 10_000;

/// `total` divided by `PARTS`, to the nearest whole number, halves away from zero.
pub fn rounded(total: i64) -> i64
    ensures value { result ≡ nearest parts total }
    ensures near { Nearest parts total result }
{
    let whole = ((total.unsigned_abs() + PARTS / 2) / PARTS).cast_signed();
    if total < 0 { -whole } else { whole }
}

/// That the two ways in which the rounding is stated agree; it answers the divisor that they are about.
pub fn rounding_agrees() -> u64
    ensures agree { Agree }
    ensures divisor { result ≡ parts }
{
    PARTS
}
