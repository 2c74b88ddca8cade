//! How much of a backing a risk takes up.
ghost use Rattle.std.specs.Prelude.{◌≡◌, Some, codes};
ghost use Rattle.figures.specs.Figures.{utilisation};
ghost use Rattle.figures.specs.Used.{utilisation_of, used, utilisation_if};

use std::fmt;

/// A backing or a risk is below 0.
#[derive(Clone, Copy, PartialEq, Eq, Debug)]
pub struct BelowZero;

impl fmt::Display for BelowZero {
    ghost output = { λ _. Some (codes "the backing or the risk is below 0") };

    fn fmt<W: fmt::Write>(&self, f: &mut fmt::Formatter<W>) -> fmt::Result {
        f.write_str("the backing or the risk is below 0")
    }
}

/// How much of a backing a risk takes up: 100 × risk / backing, in whole percent, rounded up, and `None` where nothing stands behind the risk.
pub fn used(backing: u64, risk: u64) -> Option<u128>
    ensures { utilisation_of result ≡ utilisation backing risk }
{
    if backing == 0 {
        return (risk == 0).then_some(0);
    }
    Some((100 * u128::from(risk)).div_ceil(u128::from(backing)))
}

/// The same of amounts that can be below 0, and are refused there.
pub fn utilisation(backing: i64, risk: i64) -> Result<Option<u128>, BelowZero>
    ensures { used result ≡ utilisation_if backing risk }
{
    let backing = u64::try_from(backing).or(Err(BelowZero))?;
    let risk = u64::try_from(risk).or(Err(BelowZero))?;
    Ok(used(backing, risk))
}
