//! Prices, trades, and where trades stand.
ghost use Rattle.std.specs.Prelude.{◌≡◌, ℕ};
ghost use Rattle.scenario.specs.Table.{ScenarioTable, Lawful};
ghost use Rattle.orders.specs.Meant.{trade_of_lot, carry_of_lot};
ghost use Rattle.orders.specs.Replied.{answered};
ghost use Rattle.rules.specs.Answers.{Answered, accepted, numbered};
ghost use Rattle.rules.specs.Causes.{price as priceCall, specify as specifyCall};
ghost use Rattle.book.specs.Ledgers.{ledger_in};
ghost use Rattle.entries.specs.Lots.{placed_in, Released};

use crate::lots::enter_lot;
use crate::tests::known_trader;
use book::books::Book;
use book::trades::standing::{Change, TradeCell};
use orders::Lot;
use refusals::Refusal;

// Kept as a premise, here and in the two functions below that are told a place: it is true of a table that no value here holds, so
// that no type can carry it.
/// Sets the market price of a contract, which is `placed` where the model knows it.
pub fn set_price(book: &mut Book, placed: Option<u8>, price: u64) -> Result<(), Refusal>
    ensures { (m : ScenarioTable) (k : ℕ) → placed ≡ placed_in m k → Answered m (ledger_in book.old) (priceCall k price) (answered (λ _. accepted) result) (ledger_in book.new) }
{
    let contract = placed.ok_or(Refusal::Unknown)?;
    let ticks = u32::try_from(price).or(Err(Refusal::OutOfRange))?;
    book.prices
        .set(contract, ticks)
        .or(Err(Refusal::OutOfRange))
}

/// Enters a trade of a trader, and answers its number. Its contract is `placed` where the model knows it.
pub fn enter_trade(
    book: &mut Book,
    trader: u64,
    lot: Lot,
    placed: Option<u8>,
) -> Result<u64, Refusal>
    ensures { (m : ScenarioTable) → Lawful m → placed ≡ placed_in m lot.contract → Answered m (ledger_in book.old) (trade_of_lot trader lot) (answered numbered result) (ledger_in book.new) }
{
    let contract = placed.ok_or(Refusal::Unknown)?;
    let owner = known_trader(book, trader).ok_or(Refusal::Unknown)?;
    enter_lot(book, contract, lot, owner, None)
}

/// Enters a client's position from yesterday, and answers its number. Its contract is `placed` where the model knows it.
pub fn enter_carry(
    book: &mut Book,
    client: u64,
    lot: Lot,
    placed: Option<u8>,
) -> Result<u64, Refusal>
    ensures { (m : ScenarioTable) → Lawful m → placed ≡ placed_in m lot.contract → Answered m (ledger_in book.old) (carry_of_lot client lot) (answered numbered result) (ledger_in book.new) }
{
    let contract = placed.ok_or(Refusal::Unknown)?;
    let row = book.client(client).ok_or(Refusal::Unknown)?;
    let number = u8::try_from(client).or(Err(Refusal::Unknown))?;
    enter_lot(book, contract, lot, row.trader, Some(number))
}

/// Gives a trade to a client of its trader.
pub fn specify(book: &mut Book, trade: u64, client: u64) -> Result<(), Refusal>
    ensures { (m : ScenarioTable) → Answered m (ledger_in book.old) (specifyCall trade client) (answered (λ _. accepted) result) (ledger_in book.new) }
{
    let cell = book.cell(trade).ok_or(Refusal::Unknown)?;
    let row = book.client(client).ok_or(Refusal::Unknown)?;
    let number = u8::try_from(client).or(Err(Refusal::Unknown))?;
    let TradeCell::Unspecified(found) = cell else {
        return Err(Refusal::WrongState);
    };
    if row.trader != found.trader {
        return Err(Refusal::OtherTrader);
    }
    book.trades.change(trade as usize, Change::Specify(number))
}

/// Takes a trade from its client again, whatever that does to its trader's limit, and answers its trader.
pub fn release(book: &mut Book, trade: u64) -> Result<u8, Refusal>
    ensures { Released (ledger_in book.old) trade result (ledger_in book.new) }
{
    let cell = book.cell(trade).ok_or(Refusal::Unknown)?;
    let TradeCell::Specified(found, _) = cell else {
        return Err(Refusal::WrongState);
    };
    book.trades.change(trade as usize, Change::Cancel)?;
    Ok(found.trader)
}
