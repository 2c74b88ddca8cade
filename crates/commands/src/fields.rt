//! What the words of a line say, one after another.

ghost use Rattle.std.specs.Prelude.{◌≡◌, List, ℕ, Option};
ghost use Rattle.std.specs.Option.{option_map};
ghost use Rattle.commands.specs.Fields as said;
ghost use Rattle.commands.specs.Numbers as written;
ghost use Rattle.console.specs.Words.{words};

use crate::numbers::{amount, whole};
use console::{next_word, only_word};
use orders::{Holder, Lot, Side};

// Kept beside `FromStr`: std's numbers may begin with a plus.
/// What one word can say.
pub(crate) trait Spoken: Sized + Drop {
    /// What a word says.
    ghost says: { List ℕ → Option Self };

    /// Reads a word; `None` if it says nothing of this type.
    fn read(word: &str) -> Option<Self>
        ensures { result ≡ says word.now };
}

impl Spoken for u64 {
    ghost says = { written.whole };

    fn read(word: &str) -> Option<u64> {
        whole(word)
    }
}

impl Spoken for i64 {
    ghost says = { written.amount };

    fn read(word: &str) -> Option<i64> {
        amount(word)
    }
}

impl Spoken for Side {
    ghost says = { said.side };

    fn read(word: &str) -> Option<Side> {
        match word {
            "buy" => Some(Side::Buy),
            "sell" => Some(Side::Sell),
            _ => None,
        }
    }
}

// What the first word says, and what comes after it.
fn first<T: Spoken>(text: &str) -> Option<(T, &str)>
    ensures { option_map (λ p. (p.0, words p.1.now)) result ≡ said.first T.says (words text.now) }
{
    let (word, rest) = next_word(text)?;
    Some((T::read(word)?, rest))
}

/// What the word of a line says that has just one.
pub(crate) fn one<T: Spoken>(text: &str) -> Option<T>
    ensures { result ≡ said.alone T.says (words text.now) }
{
    T::read(only_word(text)?)
}

/// What the words of a line say that has just two.
pub(crate) fn two<A: Spoken, B: Spoken>(text: &str) -> Option<(A, B)>
    ensures { result ≡ said.first_then A.says (said.alone B.says) (words text.now) }
{
    let (value, rest) = first(text)?;
    Some((value, one(rest)?))
}

// The lot in the words of a line that has just four: the contract, the side, the quantity and the price.
fn lot(text: &str) -> Option<Lot>
    ensures { result ≡ said.lot (words text.now) }
{
    let (contract, rest) = first(text)?;
    let (side, rest) = first(rest)?;
    let (quantity, price) = two(rest)?;
    Some(Lot {
        contract,
        side,
        quantity,
        price,
    })
}

/// The number and the lot in the words of a line that has just five.
// Kept beside `two`: a lot is no word, but four.
pub(crate) fn number_and_lot(text: &str) -> Option<(u64, Lot)>
    ensures { result ≡ said.number_and_lot (words text.now) }
{
    let (number, rest) = first(text)?;
    Some((number, lot(rest)?))
}

// The holder with a number, by the word before it.
// Kept beside `Spoken`: a holder is said by two words, and neither is one alone.
fn holder_of(word: &str, number: u64) -> Option<Holder>
    ensures { result ≡ said.holder word.now number }
{
    match word {
        "client" => Some(Holder::Client(number)),
        "trader" => Some(Holder::Trader(number)),
        "member" => Some(Holder::Member(number)),
        _ => None,
    }
}

/// The holder and the amount in the words of a line that has just three.
pub(crate) fn collateral(text: &str) -> Option<(Holder, i64)>
    ensures { result ≡ said.collateral (words text.now) }
{
    let (word, rest) = next_word(text)?;
    let (number, amount) = two(rest)?;
    Some((holder_of(word, number)?, amount))
}
