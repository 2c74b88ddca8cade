//! A lot that is entered as a trade.
ghost use Rattle.std.specs.Prelude.{◌≡◌, Ok, Err};
ghost use Rattle.figures.specs.Positions.{meant, position_of};
ghost use Rattle.refusals.specs.Numbers.{refusal_of};
ghost use Rattle.orders.specs.Meant.{side_of};
ghost use Rattle.rules.specs.Causes.{is_lot};
ghost use Rattle.rules.specs.Ledger.{signed};
ghost use Rattle.book.specs.Ledgers.{ledger_in};
ghost use Rattle.entries.specs.Made.{made_if};
ghost use Rattle.entries.specs.Lots.{lot_position, lot_cause, standing_for, LotEntered};

use book::books::Book;
use book::trades::standing::Trade;
use figures::position::Position;
use orders::{Lot, Side};
use refusals::Refusal;
use rules::bounds::MOST_TRADES;

// How many were bought, negative for a sale.
fn signed_quantity(side: Side, quantity: u16) -> i32
    ensures { result ≡ signed (side_of side) quantity }
{
    match side {
        Side::Buy => i32::from(quantity),
        Side::Sell => -i32::from(quantity),
    }
}

// What was traded of a known contract. `None` where the quantity or the price is outside its range.
fn position_of_lot(contract: u8, lot: Lot) -> Option<Position>
    ensures { meant result ≡ made_if (is_lot lot.quantity lot.price) (lot_position contract lot) }
{
    let quantity = u16::try_from(lot.quantity).ok()?;
    let price = u32::try_from(lot.price).ok()?;
    Position::new(contract, signed_quantity(lot.side, quantity), price)
}

// What was traded of a known contract, or why it cannot be entered.
fn fair_position(book: &Book, contract: u8, lot: Lot) -> Result<Position, Refusal>
    ensures caused { refusal_of result ≡ lot_cause (ledger_in book.now) contract lot }
    ensures made { elim result [ Ok p ↦ position_of p ≡ lot_position contract lot | Err e ↦ Unit {0} ] }
{
    if book.trades.len() >= MOST_TRADES {
        return Err(Refusal::TableFull);
    }
    let position = position_of_lot(contract, lot).ok_or(Refusal::OutOfRange)?;
    if book.prices.get(contract).is_none() {
        return Err(Refusal::NoPrice);
    }
    Ok(position)
}

// Kept with a contract beside a lot: the lot's own number is as wide as it was ordered, and the model says which it is.
// Enters a lot of a known contract as a trade of a trader, carried for a client or with none yet.
pub(crate) fn enter_lot(
    book: &mut Book,
    contract: u8,
    lot: Lot,
    trader: u8,
    client: Option<u8>,
) -> Result<u64, Refusal>
    ensures { LotEntered (ledger_in book.old) trader contract lot (standing_for client) result (ledger_in book.new) }
{
    let position = fair_position(book, contract, lot)?;
    let number = book.trades.len();
    book.trades.enter(Trade { trader, position }, client)?;
    Ok(number as u64)
}
