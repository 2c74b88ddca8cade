//! The figures that the rows of a table ask for.

ghost use Rattle.std.specs.Prelude.{◌≡◌};
ghost use Rattle.std.specs.Option.{option_map};
ghost use Rattle.tables.specs.Questions.{two_bytes, question_of, of_positions, of_two, of_list, asked};

use crate::numbers::byte;

/// The figure that a row asks for.
#[derive(Clone, Copy)]
pub(crate) enum Question<'a> {
    /// The shock of a contract in a scenario.
    Shock(u8, u8),
    /// The mark of the last position.
    Mark,
    /// What the losing positions lose in a subportfolio, in one of its scenarios.
    Loss(u8, u8),
    /// The risk of the positions, as trades without a client.
    Risk,
    /// The need of the positions, with one client whose settlement amount is 0.
    Need,
    /// What a collateral lacks of what is needed: the need, and the collateral.
    Deficit(i64, i64),
    /// The sum of so many of the greatest of some deficits.
    Greatest(i64, &'a [i64]),
    /// How much of a backing a risk takes up: the risk, and the backing.
    Utilisation(i64, i64),
}

// Two numbers of 0 to 255.
fn two_bytes(a: i64, b: i64) -> Option<(u8, u8)>
    ensures { result ≡ two_bytes a b }
{
    Some((byte(a)?, byte(b)?))
}

// The question about the positions that a word asks.
fn question_of_positions(word: &str) -> Option<Question<'static>>
    ensures { option_map question_of result ≡ of_positions word.now }
{
    match word {
        "mark" => Some(Question::Mark),
        "risk" => Some(Question::Risk),
        "need" => Some(Question::Need),
        _ => None,
    }
}

// The question that a word asks with two numbers.
fn question_of_two(word: &str, a: i64, b: i64) -> Option<Question<'static>>
    ensures { option_map question_of result ≡ of_two word.now a b }
{
    match word {
        "shock" => {
            let (contract, scenario) = two_bytes(a, b)?;
            Some(Question::Shock(contract, scenario))
        }
        "loss" => {
            let (subportfolio, scenario) = two_bytes(a, b)?;
            Some(Question::Loss(subportfolio, scenario))
        }
        "deficit" => Some(Question::Deficit(a, b)),
        "utilisation" => Some(Question::Utilisation(a, b)),
        _ => None,
    }
}

// The question about a list of deficits, after how many count.
fn question_of_list(numbers: &[i64]) -> Option<Question<'_>>
    ensures { option_map question_of result ≡ of_list numbers.now }
{
    let (count, deficits) = numbers.split_first()?;
    Some(Question::Greatest(*count, deficits))
}

/// The question that a word asks with numbers.
pub(crate) fn question_in<'a>(word: &str, numbers: &'a [i64]) -> Option<Question<'a>>
    ensures { option_map question_of result ≡ asked word.now numbers.now }
{
    if word == "greatest" {
        return question_of_list(numbers);
    }
    match numbers {
        [] => question_of_positions(word),
        [a, b] => question_of_two(word, *a, *b),
        _ => None,
    }
}
