//! Numbers of 64 bits in text.

ghost use Rattle.std.specs.Prelude.{◌≡◌, ◌≢◌, Result, slice_index};
ghost use Rattle.std.specs.Result.{result_ok};
ghost use Rattle.commands.specs.Numbers.{whole, amount};

use std::str::FromStr;

// The number that a word writes as std reads it, except that no plus may stand first.
fn plain<N: FromStr + Drop>(word: &str) -> Option<N>
where
    N::Err: Drop,
    ensures plus { slice_index word.now 0 ≡ 43 → result ≡ None }
    ensures read { slice_index word.now 0 ≢ 43 → (r : Result N N.Err) × N.from_str_gives word.now r × (result ≡ result_ok r) }
{
    if word.starts_with('+') {
        None
    } else {
        word.parse().ok()
    }
}

/// The number that a word of decimal digits writes; `None` for another word, and for a number of more than 64 bits.
pub fn whole(word: &str) -> Option<u64>
    ensures { result ≡ whole word.now }
{
    plain::<u64>(word)
}

/// The number that decimal digits write, before which a minus may stand; `None` for another word, and for a number
/// that no `i64` holds.
pub fn amount(word: &str) -> Option<i64>
    ensures { result ≡ amount word.now }
{
    plain::<i64>(word)
}
