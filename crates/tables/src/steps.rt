//! The rows that say what a table is worked out from.

ghost use Rattle.std.specs.Prelude.{◌≡◌};
ghost use Rattle.std.specs.Option.{option_map};
ghost use Rattle.figures.specs.Positions.{meant};
ghost use Rattle.tables.specs.Steps.{step_of, quantity_in, position_in, clear_in, price_in, traded_in, trade_of, stepped};

use crate::numbers::byte;
use figures::position::Position;

/// What a row says of the prices and the positions.
#[derive(Clone, Copy)]
pub(crate) enum Step {
    /// There are none any more.
    Clear,
    /// A contract has a market price, in ticks.
    Price(u8, u32),
    /// There is one more position.
    Trade(Position),
}

// How many contracts a word says, negative for a sale.
fn quantity(word: &str, count: u16) -> Option<i32>
    ensures { result ≡ quantity_in word.now count }
{
    match word {
        "buy" => Some(i32::from(count)),
        "sell" => Some(-i32::from(count)),
        _ => None,
    }
}

// A position of so many contracts.
fn position(contract: i64, quantity: i32, price: i64) -> Option<Position>
    ensures { meant result ≡ position_in contract quantity price }
{
    Position::new(byte(contract)?, quantity, u32::try_from(price).ok()?)
}

// The position that a word says with three numbers.
fn traded(word: &str, contract: i64, count: i64, price: i64) -> Option<Position>
    ensures { meant result ≡ traded_in word.now contract count price }
{
    let count = u16::try_from(count).ok()?;
    position(contract, quantity(word, count)?, price)
}

// Kept a word and its numbers, here, in `question_in` and in an example's `take` and `figure`: a row gives the two, each function matches them,
// and a type of the two would be made only to be taken apart.
/// The step that a word says with numbers.
pub(crate) fn step_in(word: &str, numbers: &[i64]) -> Option<Step>
    ensures { option_map step_of result ≡ stepped word.now numbers.now }
{
    match (word, numbers) {
        ("clear", []) => Some(Step::Clear),
        ("price", [contract, ticks]) => Some(Step::Price(
            byte(*contract)?,
            u32::try_from(*ticks).ok()?,
        )),
        (_, [contract, count, ticks]) => traded(word, *contract, *count, *ticks).map(Step::Trade),
        _ => None,
    }
}
