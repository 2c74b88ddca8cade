//! Traders and clients.
ghost use Rattle.std.specs.Prelude.{◌≡◌, ◌&&◌, pos};
ghost use Rattle.scenario.specs.Table.{ScenarioTable};
ghost use Rattle.orders.specs.Replied.{answered};
ghost use Rattle.rules.specs.Answers.{Answered, numbered};
ghost use Rattle.rules.specs.Bounds.{most_amount, most_defaults};
ghost use Rattle.rules.specs.Causes.{trader as traderCall, client as clientCall, within, new_trader};
ghost use Rattle.book.specs.Ledgers.{ledger_in};
ghost use Rattle.entries.specs.Made.{trader_made, made_if};

use crate::tests::known_trader;
use book::books::Book;
use book::clients::Client;
use book::funds::Fund;
use book::traders::Trader;
use refusals::Refusal;
use rules::bounds::{MOST_DEFAULTS, MOST_TRADERS};

// A trader as it is entered. `None` where its intraday limit or its default count is outside its range.
fn made_trader(intraday: i64, defaults: i64) -> Option<Trader>
    ensures { trader_made result ≡ made_if (within (pos 0) (pos most_amount) intraday && within (pos 1) (pos most_defaults) defaults) (new_trader intraday defaults) }
{
    let granted = Fund::new(intraday)?;
    if !(1..=i64::from(MOST_DEFAULTS)).contains(&defaults) {
        return None;
    }
    Some(Trader {
        intraday: granted,
        defaults: u8::try_from(defaults).ok()?,
        ..Trader::default()
    })
}

/// Enters a trader, and answers its number.
pub fn enter_trader(book: &mut Book, intraday: i64, defaults: i64) -> Result<u64, Refusal>
    ensures { (m : ScenarioTable) → Answered m (ledger_in book.old) (traderCall intraday defaults) (answered numbered result) (ledger_in book.new) }
{
    let number = book.traders.len();
    if number >= MOST_TRADERS {
        return Err(Refusal::TableFull);
    }
    let trader = made_trader(intraday, defaults).ok_or(Refusal::OutOfRange)?;
    book.traders.push(trader).or(Err(Refusal::TableFull))?;
    Ok(number as u64)
}

/// Enters a client of a trader, and answers its number.
pub fn enter_client(book: &mut Book, trader: u64) -> Result<u64, Refusal>
    ensures { (m : ScenarioTable) → Answered m (ledger_in book.old) (clientCall trader) (answered numbered result) (ledger_in book.new) }
{
    let owner = known_trader(book, trader).ok_or(Refusal::Unknown)?;
    let number = book.clients.len();
    let client = Client {
        trader: owner,
        ..Client::default()
    };
    book.clients.push(client).or(Err(Refusal::TableFull))?;
    Ok(number as u64)
}
