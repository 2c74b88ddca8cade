//! Signed numbers in text.

ghost use Rattle.std.specs.Prelude.{◌≡◌, IfOk, vec_items};
ghost use Rattle.std.specs.Option.{option_map};
ghost use Rattle.console.specs.Words.{words};
ghost use Rattle.tables.specs.Numbers.{whole_in, signed_in, all_signed, below};

use console::number;
use std::alloc::{AllocError, Global};

// The number that a word of decimal digits writes, where it is at most `i64::MAX`.
fn whole(digits: &str) -> Option<i64>
    ensures { result ≡ whole_in digits.now }
{
    i64::try_from(number(digits)?).ok()
}

/// The number that a word writes: decimal digits, with `-` before them for a number below 0. `None` for another word, and
/// for a number beyond `i64::MAX` either way.
pub(crate) fn signed(word: &str) -> Option<i64>
    ensures { result ≡ signed_in word.now }
{
    match word.strip_prefix('-') {
        Some(digits) => Some(-whole(digits)?),
        None => whole(word),
    }
}

/// The numbers that the words of a text write. `None` where one of them writes none.
pub(crate) fn all_signed(heap: Global, text: &str) -> Result<Option<Vec<i64>>, AllocError>
    ensures { IfOk result (λ o. option_map vec_items o ≡ all_signed (words text.now)) }
{
    let mut numbers = Vec::new(heap);
    for word in text.split(' ').filter(|word| !word.is_empty()) {
        let Some(number) = signed(word) else {
            return Ok(None);
        };
        numbers.push(number)?;
    }
    Ok(Some(numbers))
}

/// A number of 0 to 255.
pub(crate) fn byte(number: i64) -> Option<u8>
    ensures { result ≡ below 256 number }
{
    u8::try_from(number).ok()
}
