//! The sum of the greatest of some amounts.

ghost use Rattle.std.specs.Prelude.{◌≡◌};
ghost use Rattle.tables.specs.Greatest.{greatest_if};

use cells::rows::Rows;
use deficits::{Deficit, sum_of_greatest};

/// The sum of the `count` greatest of what some clients lack. `None` where there are more than 128 of them, an amount is
/// not 0 to `deficits::MOST_AMOUNT`, or the count is below 0.
pub(crate) fn greatest_of(owed: &[i64], count: i64) -> Option<i64>
    ensures { result ≡ greatest_if count owed.now }
{
    let count = usize::try_from(count).ok()?;
    let mut deficits = Rows::<Deficit, 128>::new();
    for (i, amount) in owed.iter().enumerate() {
        let deficit = Deficit {
            amount: *amount,
            client: u8::try_from(i).ok()?,
        };
        deficits.push(deficit).ok()?;
    }
    sum_of_greatest(deficits.as_slice(), count)
}
