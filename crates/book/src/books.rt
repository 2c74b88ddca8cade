//! The book.
ghost use Rattle.std.specs.Prelude.{pos, ◌≤ℤ◌};
ghost use Rattle.rules.specs.Ledger.{Holder};
ghost use Rattle.book.specs.Pledged.{pledged};

use crate::clients::Client;
use crate::stubs::Stub;
use crate::traders::Trader;
use crate::trades::TradeTable;
use cells::rows::Rows;
use figures::prices::Prices;

pub mod reading;

/// The book of a day: traders, clients, trades, market prices, the slips that stand, how many slips were made, and whether the settlement window has passed.
/// A holder never has more than 10^15 centavos, its standing slips counted in.
#[derive(Clone, Copy)]
pub struct Book {
    /// The traders, numbered from 0.
    pub traders: Rows<Trader, 16>,
    /// The clients, numbered from 0.
    pub clients: Rows<Client, 128>,
    /// The trades, numbered from 0, positions from yesterday among them.
    pub trades: TradeTable,
    /// The market prices.
    pub prices: Prices,
    /// The slips that stand, in the order in which they were made.
    pub slips: Rows<Stub, 32>,
    /// How many slips were made.
    pub made: u32,
    /// Whether the settlement window has passed.
    pub passed: bool,
    ghost capped: { (h : Holder) → pledged traders clients slips h ≤ℤ pos 1000000000000000 },
}
