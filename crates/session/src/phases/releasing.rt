//! The calls of a session that release collateral, or take a trade from its client. Each is tried on a copy of the book, which is kept only if the rules allow it.
ghost use Rattle.std.specs.Prelude.{◌≡◌, false, ◌&&◌, ◌||◌, pos, ◌-ℤ◌, Some, int_lt};
ghost use Rattle.figures.specs.Sums.{larger};
ghost use Rattle.orders.specs.Meant.{holder_of};
ghost use Rattle.orders.specs.Replied.{answered};
ghost use Rattle.rules.specs.Answers.{accepted, handed};
ghost use Rattle.rules.specs.Causes.{cancel as cancelCall, withdraw as withdrawCall, short, no_such_holder};
ghost use Rattle.rules.specs.Ledger.{holders_trader};
ghost use Rattle.rules.specs.Limits.{limit};
ghost use Rattle.book.specs.Ledgers.{ledger_in};
ghost use Rattle.session.specs.Phases.{open_ledger, slip_of, Enters};

use crate::phases::Session;
use crate::slips::Slip;
use book::books::Book;
use book::clients::Client;
use book::funds::Fund;
use book::stubs::Stub;
use entries::trading::release;
use money::vaults::pay_out;
use orders::Holder;
use refusals::Refusal;
use scenario::ScenarioModel;

// Whether an amount less leaves a client's collateral below what it needs now, or needed when the session was opened.
fn leaves_less(client: Client, need: i64, amount: Fund) -> bool
    ensures { result ≡ int_lt (client.collateral.amount -ℤ amount.amount) (larger client.opening_need need) }
{
    client.collateral.amount - amount.amount < client.opening_need.max(need)
}

// Kept with a premise, here and in `is_short` and `is_uncovered`: that there is the holder is a fact of the book, which no type of a slip or of a holder can say.
// The trader whose limit the collateral of a holder, which there is, stands behind.
fn trader_of(book: &Book, holder: Holder) -> Option<u8>
    ensures { no_such_holder (ledger_in book.now) (holder_of holder) ≡ false → result ≡ Some (holders_trader (ledger_in book.now) (holder_of holder)) }
{
    match holder {
        Holder::Client(client) => book.client(client).map(|row| row.trader),
        Holder::Trader(trader) | Holder::Member(trader) => u8::try_from(trader).ok(),
    }
}

impl<M: ScenarioModel> Session<M> {
    // Whether what a slip hands out leaves its holder, which there is, short of its needs. Traders and the member have none.
    fn is_short(&self, stub: Stub) -> bool
        ensures { no_such_holder (open_ledger self.now) (holder_of stub.holder) ≡ false → result ≡ short (M.ScenarioModel.table self.now.model) (open_ledger self.now) (holder_of stub.holder) stub.amount.amount }
    {
        let Holder::Client(client) = stub.holder else {
            return false;
        };
        self.book
            .client(client)
            .zip(self.day().need_of(client))
            .is_none_or(|(row, need)| leaves_less(row, need, stub.amount))
    }

    // Whether a withdrawal that was tried, of a holder that there is, leaves a client short of its needs, or the holder's trader's limit below zero.
    fn is_uncovered(&self, tried: &Book, stub: Stub) -> bool
        ensures { no_such_holder (open_ledger self.now) (holder_of stub.holder) ≡ false → result ≡ (short (M.ScenarioModel.table self.now.model) (open_ledger self.now) (holder_of stub.holder) stub.amount.amount || int_lt (limit (M.ScenarioModel.table self.now.model) (ledger_in tried.now) (holders_trader (open_ledger self.now) (holder_of stub.holder))) (pos 0)) }
    {
        let trader = trader_of(&self.book, stub.holder);
        self.is_short(stub) || trader.is_none_or(|trader| self.day_with(tried).limit_of(trader) < 0)
    }

    // Whether a cancellation that was tried lowers a trader's limit, and to below zero.
    fn is_sunk(&self, tried: &Book, trader: u8) -> bool
        ensures { result ≡ (int_lt (limit (M.ScenarioModel.table self.now.model) (ledger_in tried.now) trader) (limit (M.ScenarioModel.table self.now.model) (open_ledger self.now) trader) && int_lt (limit (M.ScenarioModel.table self.now.model) (ledger_in tried.now) trader) (pos 0)) }
    {
        let left = self.day_with(tried).limit_of(trader);
        left < 0 && left < self.day().limit_of(trader)
    }

    /// Takes a trade from its client again, unless that lowers its trader's limit to below zero.
    pub fn cancel(&mut self, trade: u64) -> Result<(), Refusal>
        ensures { Enters M.ScenarioModel.table self.old (cancelCall trade) (answered (λ _. accepted) result) self.new }
    {
        let mut tried = self.book;
        let trader = release(&mut tried, trade)?;
        if self.is_sunk(&tried, trader) {
            return Err(Refusal::NotCovered);
        }
        self.book = tried;
        Ok(())
    }

    /// Hands out collateral of a holder against a slip, unless that leaves a client short of its needs or its trader's limit below zero.
    pub fn withdraw(&mut self, holder: Holder, amount: i64) -> Result<Slip, Refusal>
        ensures { Enters M.ScenarioModel.table self.old (withdrawCall (holder_of holder) amount) (answered (λ s. handed (slip_of s)) result) self.new }
    {
        let mut tried = self.book;
        let stub = pay_out(&mut tried, holder, amount)?;
        if self.is_uncovered(&tried, stub) {
            return Err(Refusal::NotCovered);
        }
        self.book = tried;
        Ok(Slip { stub })
    }
}
