//! What a line of the input asks.
ghost use Rattle.std.specs.Prelude.{◌≡◌};
ghost use Rattle.console.specs.Requests.{asked};
ghost use Rattle.limits.specs.Entered.{entered, entered_by};
ghost use Rattle.replies.specs.declared.notes.Unreadable.TheVariants.{NoLine};

use commands::calls::order_of;
use console::{Request, request_of};
use orders::Order;
use reading::line::{InputLine, Reached};
use replies::notes::Unreadable;

/// What a line asks.
pub(crate) enum Entry<'a> {
    /// Nothing.
    Nothing,
    /// To read the sheet at a path.
    Sheet(&'a str),
    /// What a contract gains and loses in the scenarios.
    Contract(u64),
    /// An order of the day.
    Order(Order),
    /// No line that is known.
    Unreadable(Unreadable),
}

// What a text asks.
fn entry_in(text: &str) -> Entry<'_>
    ensures { entered_by result ≡ entered NoLine text.now (asked text.now) }
{
    match request_of(text) {
        Request::Nothing => Entry::Nothing,
        Request::Sheet(path) => Entry::Sheet(path),
        Request::Contract(contract) => Entry::Contract(contract),
        Request::Unreadable => match order_of(text) {
            Some(order) => Entry::Order(order),
            None => Entry::Unreadable(Unreadable::NoLine),
        },
    }
}

/// What a line asks.
pub(crate) fn entry_of(reached: Reached, line: &InputLine) -> Entry<'_> {
    if let Reached::TooLong = reached {
        return Entry::Unreadable(Unreadable::TooLong);
    }
    match line.text() {
        Some(text) => entry_in(text),
        None => Entry::Unreadable(Unreadable::NoLine),
    }
}
