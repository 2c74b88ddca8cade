//! A trader's statement, and its limit.
ghost use Rattle.std.specs.Prelude.{◌≡◌, ◌<◌, ◌≤◌, length, MatchOption};
ghost use Rattle.rules.specs.Answers.{statement_of};
ghost use Rattle.rules.specs.Ledger.{trader_of};
ghost use Rattle.rules.specs.Limits.{limit};
ghost use Rattle.book.specs.Ledgers.{ledger_in};
ghost use Rattle.book.specs.Means.{trader_in};
ghost use Rattle.statements.specs.Stated.{statement_in};

use crate::days::Day;
use crate::statement::Statement;
use crate::totals::{backing_of, left_of, risk_of, specified_risk};
use book::traders::Trader;
use figures::utilisations::used;
use scenario::ScenarioModel;

impl<'a, M: ScenarioModel> Day<'a, M> {
    /// The statement of a trader, of what stands of it in the book.
    fn statement_of(&self, number: u8, trader: Trader) -> Statement
        requires { trader_in trader ≡ trader_of (ledger_in self.now.book.now) number }
        ensures { statement_in result ≡ statement_of (M.ScenarioModel.table self.now.model.now) (ledger_in self.now.book.now) number }
    {
        let clients = self.all_figures(number);
        let specified = specified_risk(&clients, trader.defaults);
        let unspecified = self.unspecified_risk(number);
        let risk = risk_of(specified, unspecified);
        let backing = backing_of(trader);
        Statement {
            clients,
            specified,
            unspecified,
            risk,
            backing,
            limit: left_of(backing, risk),
            used: used(backing.unsigned_abs(), risk.unsigned_abs()),
        }
    }

    /// A trader's statement. `None` where there is no such trader.
    pub fn statement(&self, trader: u64) -> Option<Statement>
        ensures { MatchOption result (length (ledger_in self.now.book.now).traders ≤ trader) (λ s. (trader < length (ledger_in self.now.book.now).traders) × (statement_in s ≡ statement_of (M.ScenarioModel.table self.now.model.now) (ledger_in self.now.book.now) trader)) }
    {
        let row = self.book.trader(trader)?;
        Some(self.statement_of(u8::try_from(trader).ok()?, row))
    }

    /// A trader's limit: what stands behind it, less its risk. Nothing stands behind a number that is not in use.
    pub fn limit_of(&self, trader: u8) -> i64
        ensures { result ≡ limit (M.ScenarioModel.table self.now.model.now) (ledger_in self.now.book.now) trader }
    {
        let row = self.book.trader(u64::from(trader)).unwrap_or_default();
        self.statement_of(trader, row).limit
    }
}
