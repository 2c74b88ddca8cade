//! How a book is begun and read.
ghost use Rattle.std.specs.Prelude.{◌≡◌, ◌<◌, ◌≤◌, true, map, length, MatchOption};
ghost use Rattle.rules.specs.Ledger.{empty_ledger, trader_of, client_of, trade_of};
ghost use Rattle.book.specs.Filled.{is_filled, each_filled};
ghost use Rattle.book.specs.Ledgers.{ledger_in};
ghost use Rattle.book.specs.Means.{trader_in, client_in, trade_in};

use crate::books::Book;
use crate::clients::Client;
use crate::traders::Trader;
use crate::trades::TradeTable;
use crate::trades::standing::TradeCell;
use cells::rows::Rows;
use figures::prices::Prices;

impl Book {
    /// A book in which nothing is entered.
    pub fn new() -> Book
        ensures { ledger_in result ≡ empty_ledger }
    {
        Book {
            traders: Rows::new(),
            clients: Rows::new(),
            trades: TradeTable::new(),
            prices: Prices::new(),
            slips: Rows::new(),
            made: 0,
            passed: false,
        }
    }

    /// What stands of a trader, `None` where there is no such trader.
    pub fn trader(&self, trader: u64) -> Option<Trader>
        ensures { MatchOption result (length (ledger_in self.now).traders ≤ trader) (λ x. (trader < length (ledger_in self.now).traders) × (trader_in x ≡ trader_of (ledger_in self.now) trader)) }
    {
        self.traders.get(trader as usize)
    }

    /// What stands of a client, `None` where there is no such client.
    pub fn client(&self, client: u64) -> Option<Client>
        ensures { MatchOption result (length (ledger_in self.now).clients ≤ client) (λ x. (client < length (ledger_in self.now).clients) × (client_in x ≡ client_of (ledger_in self.now) client)) }
    {
        self.clients.get(client as usize)
    }

    /// The cell of a trade, `None` where there is no such trade. It is not empty.
    pub fn cell(&self, trade: u64) -> Option<TradeCell>
        ensures { MatchOption result (length (ledger_in self.now).trades ≤ trade) (λ x. (trade < length (ledger_in self.now).trades) × (trade_in x ≡ trade_of (ledger_in self.now) trade) × (is_filled x ≡ true)) }
    {
        self.trades.get(trade as usize)
    }

    /// How many clients there are.
    pub fn client_count(&self) -> u8
        ensures value { result ≡ length (ledger_in self.now).clients }
        ensures few { result ≤ 128 }
    {
        u8::try_from(self.clients.len()).unwrap()
    }

    /// The cells of the trades, none of which is empty.
    pub fn cells(&self) -> &[TradeCell]
        ensures value { map trade_in result.now ≡ (ledger_in self.now).trades }
        ensures few { length result.now ≤ 1024 }
        ensures filled { each_filled result.now ≡ true }
    {
        self.trades.as_slice()
    }

    /// The market prices.
    pub fn prices(&self) -> &Prices
        ensures { result.now.ticks ≡ (ledger_in self.now).prices }
    {
        &self.prices
    }
}
