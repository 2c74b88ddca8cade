//! The collateral of holders, in the rows of clients and traders.
ghost use Rattle.std.specs.Prelude.{◌≡◌, true, false, ℤ, ◌+ℤ◌, MatchOption};
ghost use Rattle.orders.specs.Meant.{holder_of};
ghost use Rattle.rules.specs.Ledger.{Ledger, more, collateral_of, moved};
ghost use Rattle.rules.specs.Causes.{no_such_holder, is_amount};
ghost use Rattle.book.specs.Ledgers.{ledger_in};
ghost use Rattle.book.specs.Means.{clients_in, traders_in};

use book::books::Book;
use book::clients::Client;
use book::funds::Fund;
use book::traders::Trader;
use cells::rows::Rows;
use orders::Holder;

// The amount of a deposit or of a withdrawal. `None` where it is not 1 to 10^15.
pub(crate) fn fair_amount(amount: i64) -> Option<Fund>
    ensures { MatchOption result (is_amount amount ≡ false) (λ x. (is_amount amount ≡ true) × (x.amount ≡ amount)) }
{
    Fund::new(amount).filter(|fund| fund.amount >= 1)
}

// The collateral of a holder, `None` where it is unknown.
pub(crate) fn collateral(book: &Book, holder: Holder) -> Option<Fund>
    ensures { MatchOption result (no_such_holder (ledger_in book.now) (holder_of holder) ≡ true) (λ x. (no_such_holder (ledger_in book.now) (holder_of holder) ≡ false) × (x.amount ≡ collateral_of (ledger_in book.now) (holder_of holder))) }
{
    match holder {
        Holder::Client(client) => book.client(client).map(|row| row.collateral),
        Holder::Trader(trader) => book.trader(trader).map(|row| row.own),
        Holder::Member(trader) => book.trader(trader).map(|row| row.favour),
    }
}

// Writes the collateral of a holder: what it has then is what it had, and an amount more or less.
pub(crate) fn set_collateral(
    traders: &mut Rows<Trader, 16>,
    clients: &mut Rows<Client, 128>,
    holder: Holder,
    fund: Fund,
)
    ensures { (l : Ledger) (a : ℤ) → l.traders ≡ traders_in traders.old → l.clients ≡ clients_in clients.old → fund.amount ≡ collateral_of l (holder_of holder) +ℤ a → (traders_in traders.new ≡ (moved l (holder_of holder) a).traders) × (clients_in clients.new ≡ (moved l (holder_of holder) a).clients) }
{
    match holder {
        Holder::Client(client) => {
            if let Some(row) = clients.get_mut(client as usize) {
                row.collateral = fund;
            }
        }
        Holder::Trader(trader) => {
            if let Some(row) = traders.get_mut(trader as usize) {
                row.own = fund;
            }
        }
        Holder::Member(trader) => {
            if let Some(row) = traders.get_mut(trader as usize) {
                row.favour = fund;
            }
        }
    }
}
