//! What is needed behind the positions of clients.
ghost use Rattle.std.specs.Prelude.{◌≡◌, ℕ, ◌<◌, ◌≤◌, length, pos, if◌then◌else◌, Some, None, nat_lt, slice_index_or};
ghost use Rattle.rules.specs.Limits.{need_of};
ghost use Rattle.book.specs.Ledgers.{ledger_in};

use crate::days::Day;
use rules::bounds::MOST_CLIENTS;
use scenario::ScenarioModel;

impl<'a, M: ScenarioModel> Day<'a, M> {
    /// What is needed behind a client's positions, with what it owes of the day's settlement. `None` where there is no such client.
    pub fn need_of(&self, client: u64) -> Option<i64>
        ensures { result ≡ (if nat_lt client (length (ledger_in self.now.book.now).clients) then Some (need_of (M.ScenarioModel.table self.now.model.now) (ledger_in self.now.book.now) client) else None) }
    {
        let row = self.book.client(client)?;
        let number = u8::try_from(client).ok()?;
        Some(self.account_of(number, row).need)
    }

    /// The needs of all clients, by number, and 0 past the last client.
    pub fn needs(&self) -> [i64; MOST_CLIENTS]
        ensures known { (c : ℕ) → c < length (ledger_in self.now.book.now).clients → slice_index_or result c (pos 0) ≡ need_of (M.ScenarioModel.table self.now.model.now) (ledger_in self.now.book.now) c }
        ensures past { (c : ℕ) → length (ledger_in self.now.book.now).clients ≤ c → slice_index_or result c (pos 0) ≡ pos 0 }
    {
        // Kept an array, without a count beside it: 0 past the last client is promised, and the needs at the opening are entered from every such array.
        let mut needs = [0; MOST_CLIENTS];
        for (client, need) in needs.iter_mut().enumerate() {
            *need = self.need_of(client as u64).unwrap_or(0);
        }
        needs
    }
}
