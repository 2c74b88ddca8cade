//! The calls of a session, but for those that release collateral or a trade.
ghost use Rattle.std.specs.Prelude.{◌≡◌, Ok, Err};
ghost use Rattle.orders.specs.Meant.{holder_of, trade_of_lot};
ghost use Rattle.orders.specs.Replied.{answered};
ghost use Rattle.rules.specs.Answers.{Answered, accepted, numbered, stated};
ghost use Rattle.rules.specs.Causes.{price as priceCall, deposit as depositCall, specify as specifyCall, cash as cashCall, window as windowCall, statement as statementCall, settle as settleCall, put_back as putBackCall};
ghost use Rattle.statements.specs.Stated.{statement_in};
ghost use Rattle.session.specs.Phases.{open_ledger, slip_of, Enters, spent, ComesBack, AsItWas};

use crate::known::placed;
use crate::phases::Session;
use crate::slips::Slip;
use entries::trading::{enter_trade, set_price, specify};
use money::settling::{pass_window, set_cash};
use money::vaults::{deposit, put_back, settle};
use orders::{Holder, Lot};
use refusals::Refusal;
use scenario::ScenarioModel;
use statements::statement::Statement;

impl<M: ScenarioModel> Session<M> {
    /// The model.
    pub fn model(&self) -> &M
        ensures { result.now ≡ self.now.model }
    {
        &self.model
    }

    /// A trade of a trader, which has no client yet. It answers the trade's number.
    pub fn trade(&mut self, trader: u64, lot: Lot) -> Result<u64, Refusal>
        ensures { Enters M.ScenarioModel.table self.old (trade_of_lot trader lot) (answered numbered result) self.new }
    {
        let known = placed(&self.model, lot.contract);
        enter_trade(&mut self.book, trader, lot, known)
    }

    /// A trade goes to a client of its trader.
    pub fn specify(&mut self, trade: u64, client: u64) -> Result<(), Refusal>
        ensures { Enters M.ScenarioModel.table self.old (specifyCall trade client) (answered (λ _. accepted) result) self.new }
    {
        specify(&mut self.book, trade, client)
    }

    /// Collateral for a holder.
    pub fn deposit(&mut self, holder: Holder, amount: i64) -> Result<(), Refusal>
        ensures { Enters M.ScenarioModel.table self.old (depositCall (holder_of holder) amount) (answered (λ _. accepted) result) self.new }
    {
        deposit(&mut self.book, holder, amount)
    }

    /// Settles a slip. Where none like it stands, it comes back.
    pub fn settle(&mut self, slip: Slip) -> Result<(), (Refusal, Slip)>
        ensures entered { Enters M.ScenarioModel.table self.old (settleCall (slip_of slip)) (spent result) self.new }
        ensures back { ComesBack result slip }
    {
        let Slip { stub } = slip;
        settle(&mut self.book, stub).map_err(|refusal| (refusal, Slip { stub }))
    }

    /// Puts a slip back: its amount returns to its holder. Where none like it stands, it comes back.
    pub fn put_back(&mut self, slip: Slip) -> Result<(), (Refusal, Slip)>
        ensures entered { Enters M.ScenarioModel.table self.old (putBackCall (slip_of slip)) (spent result) self.new }
        ensures back { ComesBack result slip }
    {
        let Slip { stub } = slip;
        put_back(&mut self.book, stub).map_err(|refusal| (refusal, Slip { stub }))
    }

    /// The market price of a contract.
    pub fn price(&mut self, contract: u64, price: u64) -> Result<(), Refusal>
        ensures { Enters M.ScenarioModel.table self.old (priceCall contract price) (answered (λ _. accepted) result) self.new }
    {
        let known = placed(&self.model, contract);
        set_price(&mut self.book, known, price)
    }

    /// A client's settlement amount.
    pub fn cash(&mut self, client: u64, amount: i64) -> Result<(), Refusal>
        ensures { Enters M.ScenarioModel.table self.old (cashCall client amount) (answered (λ _. accepted) result) self.new }
    {
        set_cash(&mut self.book, client, amount)
    }

    /// The settlement window has passed: every settlement amount becomes 0.
    pub fn window(&mut self) -> Result<(), Refusal>
        ensures { Enters M.ScenarioModel.table self.old windowCall (answered (λ _. accepted) result) self.new }
    {
        pass_window(&mut self.book)
    }

    // Kept a place to fill: a statement goes where the caller has room for it, and a refused one leaves that as it was.
    /// Fills a place with a trader's statement. Where the trader is unknown, the place stays as it was.
    pub fn statement(&self, trader: u64, place: &mut Statement) -> Result<(), Refusal>
        ensures rules { Answered (M.ScenarioModel.table self.now.model) (open_ledger self.now) (statementCall trader) (answered (λ _. stated (statement_in place.new)) result) (open_ledger self.now) }
        ensures kept { AsItWas result place.old place.new }
    {
        *place = self.day().statement(trader).ok_or(Refusal::Unknown)?;
        Ok(())
    }
}
