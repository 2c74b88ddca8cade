//! The sums of a statement.
ghost use Rattle.std.specs.Prelude.{◌≡◌, ◌≤◌, map, length, pos, ◌+ℤ◌, ◌-ℤ◌, ◌≤ℤ◌, unsigned_abs};
ghost use Rattle.cells.specs.Listed.{listed};
ghost use Rattle.deficits.specs.Summed.{amounts};
ghost use Rattle.figures.specs.Sums.{total_greatest};
ghost use Rattle.rules.specs.Limits.{unspecified_risk};
ghost use Rattle.book.specs.Ledgers.{ledger_in};

use crate::clients::ClientFigures;
use crate::collecting::{OpenFor, collect};
use crate::days::Day;
use book::traders::Trader;
use cells::rows::Rows;
use deficits::{Deficit, sum_of_greatest};
use figures::positions::Positions;
use scenario::ScenarioModel;

/// What each of some clients lacks.
fn deficits_of(clients: &Rows<ClientFigures, 128>) -> Rows<Deficit, 128>
    ensures { amounts (listed result) ≡ map (λ c. c.deficit) (listed clients.now) }
{
    let mut found = Rows::new();
    for client in clients.as_slice() {
        let _ = found.push(Deficit {
            amount: client.deficit,
            client: client.number,
        });
    }
    found
}

/// What the clients that lack most lack together, of at most `defaults`.
pub(crate) fn specified_risk(clients: &Rows<ClientFigures, 128>, defaults: u8) -> i64
    ensures value { result ≡ total_greatest defaults (map (λ c. c.deficit) (listed clients.now)) }
    ensures small { unsigned_abs result ≤ 6400000000000000000 }
{
    let deficits = deficits_of(clients);
    sum_of_greatest(deficits.as_slice(), usize::from(defaults)).unwrap()
}

impl<'a, M: ScenarioModel> Day<'a, M> {
    /// The risk of the trades of a trader that have no client yet.
    pub(crate) fn unspecified_risk(&self, trader: u8) -> i64
        ensures value { result ≡ unspecified_risk (M.ScenarioModel.table self.now.model.now) (ledger_in self.now.book.now) trader }
        ensures small { unsigned_abs result ≤ 90112000000000000 }
    {
        let found = collect(self.book, &OpenFor(trader));
        self.market().open_risk_of(Positions::of(&found))
    }
}

/// Both risks together.
pub(crate) fn risk_of(specified: i64, unspecified: i64) -> i64
    requires { (unsigned_abs specified ≤ 6400000000000000000) × (unsigned_abs unspecified ≤ 90112000000000000) }
    ensures value { result ≡ specified +ℤ unspecified }
    ensures small { unsigned_abs result ≤ 6500000000000000000 }
{
    specified + unspecified
}

/// What stands behind a trader.
pub(crate) fn backing_of(trader: Trader) -> i64
    ensures value { result ≡ trader.intraday.amount +ℤ trader.own.amount +ℤ trader.favour.amount }
    ensures low { pos 0 ≤ℤ result }
    ensures high { result ≤ℤ pos 3000000000000000 }
{
    trader.intraday.amount + trader.own.amount + trader.favour.amount
}

/// What a backing leaves over a risk.
pub(crate) fn left_of(backing: i64, risk: i64) -> i64
    requires { (unsigned_abs backing ≤ 3000000000000000) × (unsigned_abs risk ≤ 6500000000000000000) }
    ensures { result ≡ backing -ℤ risk }
{
    backing - risk
}
