//! How the figures of clients are worked out.
ghost use Rattle.std.specs.Prelude.{◌≡◌, ◌<◌, ◌≤◌, true, map, length, pos, ◌≤ℤ◌, if◌then◌else◌, Some, None, nat_eq, unsigned_abs};
ghost use Rattle.cells.specs.Listed.{listed};
ghost use Rattle.figures.specs.Figures.{margin, need, deficit};
ghost use Rattle.figures.specs.Sums.{those_below};
ghost use Rattle.rules.specs.Answers.{client_figures};
ghost use Rattle.rules.specs.Ledger.{client_of, market};
ghost use Rattle.rules.specs.Limits.{clients_of, held};
ghost use Rattle.book.specs.Ledgers.{ledger_in};
ghost use Rattle.book.specs.Means.{client_in};
ghost use Rattle.statements.specs.Figured.{figures_in, figured};

use crate::clients::ClientFigures;
use crate::collecting::{HeldBy, collect};
use crate::days::Day;
use book::clients::Client;
use book::funds::Fund;
use cells::rows::Rows;
use figures::accounts::Account;
use figures::positions::Positions;
use scenario::ScenarioModel;

// Kept beside the `deficit` of the crate figures: that answers `None` where a collateral is below 0, which no fund is.
/// What a collateral lacks of a need, not below 0.
fn lacking(need: i64, collateral: Fund) -> i64
    requires { unsigned_abs need ≤ 20000000000000000 }
    ensures value { result ≡ deficit need collateral.amount }
    ensures low { pos 0 ≤ℤ result }
    ensures high { result ≤ℤ pos 50000000000000000 }
{
    (need - collateral.amount).max(0)
}

impl<'a, M: ScenarioModel> Day<'a, M> {
    /// The margins of a client's positions, and what is needed behind them.
    pub(crate) fn account_of(&self, number: u8, client: Client) -> Account
        ensures margins { listed result.margins ≡ map (margin (M.ScenarioModel.table self.now.model.now) (held (ledger_in self.now.book.now) number)) (those_below (M.ScenarioModel.table self.now.model.now).subportfolios (λ _. true)) }
        ensures need { result.need ≡ need (M.ScenarioModel.table self.now.model.now) (market (ledger_in self.now.book.now)) (held (ledger_in self.now.book.now) number) client.cash.amount }
        ensures small { unsigned_abs result.need ≤ 20000000000000000 }
    {
        let found = collect(self.book, &HeldBy(number));
        self.market().account(Positions::of(&found), client.cash)
    }

    /// The figures of a client, of what stands of it in the book.
    fn figures_of(&self, number: u8, client: Client) -> ClientFigures
        requires { client_in client ≡ client_of (ledger_in self.now.book.now) number }
        ensures { figures_in result ≡ client_figures (M.ScenarioModel.table self.now.model.now) (ledger_in self.now.book.now) number }
    {
        let Account { margins, need } = self.account_of(number, client);
        ClientFigures {
            number,
            margins,
            need,
            collateral: client.collateral.amount,
            deficit: lacking(need, client.collateral),
        }
    }

    /// The figures of a client, where it is the trader's.
    fn figures_if(&self, trader: u8, number: u8) -> Option<ClientFigures>
        requires { number < length (ledger_in self.now.book.now).clients }
        ensures { figured result ≡ (if nat_eq (client_of (ledger_in self.now.book.now) number).trader trader then Some (client_figures (M.ScenarioModel.table self.now.model.now) (ledger_in self.now.book.now) number) else None) }
    {
        let client = self.book.client(u64::from(number))?;
        if client.trader != trader {
            return None;
        }
        Some(self.figures_of(number, client))
    }

    /// The figures of a trader's clients, by rising number.
    pub(crate) fn all_figures(&self, trader: u8) -> Rows<ClientFigures, 128>
        ensures { map figures_in (listed result) ≡ map (client_figures (M.ScenarioModel.table self.now.model.now) (ledger_in self.now.book.now)) (clients_of (ledger_in self.now.book.now) trader) }
    {
        let mut found = Rows::new();
        // Kept by number: the figures of a client carry its number, and its trades are found by it; the rows beside the numbers would only save that each is read by its number.
        for number in 0..self.book.client_count() {
            if let Some(figures) = self.figures_if(trader, number) {
                let _ = found.push(figures);
            }
        }
        found
    }
}
