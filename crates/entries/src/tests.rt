//! What is tested of a call before it is entered.
ghost use Rattle.std.specs.Prelude.{◌≡◌, true, false, MatchOption};
ghost use Rattle.rules.specs.Causes.{no_such_trader};
ghost use Rattle.book.specs.Ledgers.{ledger_in};

use book::books::Book;

// The number of a trader as its rows keep it, `None` where it is unknown.
pub(crate) fn known_trader(book: &Book, trader: u64) -> Option<u8>
    ensures { MatchOption result (no_such_trader (ledger_in book.now) trader ≡ true) (λ x. (no_such_trader (ledger_in book.now) trader ≡ false) × (x ≡ trader)) }
{
    book.trader(trader)?;
    u8::try_from(trader).ok()
}
