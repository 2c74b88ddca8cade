//! The calls of a preparation.
ghost use Rattle.std.specs.Prelude.{◌≡◌};
ghost use Rattle.orders.specs.Meant.{holder_of, carry_of_lot};
ghost use Rattle.orders.specs.Replied.{answered};
ghost use Rattle.rules.specs.Answers.{accepted, numbered};
ghost use Rattle.rules.specs.Causes.{entered, opening, trader as traderCall, client as clientCall, price as priceCall, deposit as depositCall};
ghost use Rattle.rules.specs.Ledger.{empty_ledger};
ghost use Rattle.session.specs.Phases.{prepared, open_ledger, Prepares};

use crate::known::placed;
use crate::phases::{Preparation, Session};
use book::books::Book;
use entries::parties::{enter_client, enter_trader};
use entries::trading::{enter_carry, set_price};
use money::settling::enter_needs;
use money::vaults::deposit;
use orders::{Holder, Lot};
use refusals::Refusal;
use scenario::ScenarioModel;

impl<M: ScenarioModel> Preparation<M> {
    /// A preparation over a model, with no trader, client, trade or price.
    pub fn new(model: M) -> Preparation<M>
        ensures fresh { prepared result ≡ empty_ledger }
        ensures model { result.model ≡ model }
    {
        Preparation {
            model,
            book: Book::new(),
        }
    }

    /// The model.
    pub fn model(&self) -> &M
        ensures { result.now ≡ self.now.model }
    {
        &self.model
    }

    /// A trader, with its intraday limit and its default count. It answers the trader's number.
    pub fn trader(&mut self, intraday: i64, defaults: i64) -> Result<u64, Refusal>
        ensures { Prepares M.ScenarioModel.table self.old (traderCall intraday defaults) (answered numbered result) self.new }
    {
        enter_trader(&mut self.book, intraday, defaults)
    }

    /// A client of a trader. It answers the client's number.
    pub fn client(&mut self, trader: u64) -> Result<u64, Refusal>
        ensures { Prepares M.ScenarioModel.table self.old (clientCall trader) (answered numbered result) self.new }
    {
        enter_client(&mut self.book, trader)
    }

    /// A client's position from yesterday, at yesterday's settlement price. It answers the trade's number.
    pub fn carry(&mut self, client: u64, lot: Lot) -> Result<u64, Refusal>
        ensures { Prepares M.ScenarioModel.table self.old (carry_of_lot client lot) (answered numbered result) self.new }
    {
        let known = placed(&self.model, lot.contract);
        enter_carry(&mut self.book, client, lot, known)
    }

    /// The market price of a contract.
    pub fn price(&mut self, contract: u64, price: u64) -> Result<(), Refusal>
        ensures { Prepares M.ScenarioModel.table self.old (priceCall contract price) (answered (λ _. accepted) result) self.new }
    {
        let known = placed(&self.model, contract);
        set_price(&mut self.book, known, price)
    }

    /// Collateral for a holder.
    pub fn deposit(&mut self, holder: Holder, amount: i64) -> Result<(), Refusal>
        ensures { Prepares M.ScenarioModel.table self.old (depositCall (holder_of holder) amount) (answered (λ _. accepted) result) self.new }
    {
        deposit(&mut self.book, holder, amount)
    }

    /// The preparation becomes a session, and each client's need its opening need.
    pub fn open(self) -> Session<M>
        ensures ledger { open_ledger result ≡ entered (M.ScenarioModel.table self.model) (prepared self) opening }
        ensures model { result.model ≡ self.model }
    {
        let Preparation { model, book } = self;
        let mut session = Session { model, book };
        let needs = session.day().needs();
        enter_needs(&mut session.book, &needs);
        session
    }
}
