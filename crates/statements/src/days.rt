//! What statements are made of.
ghost use Rattle.std.specs.Prelude.{◌≡◌};
ghost use Rattle.book.specs.Ledgers.{ledger_in};

use book::books::Book;
use figures::markets::Market;
use scenario::ScenarioModel;

/// A scenario model, and the book as it stands on a day: what statements are made of.
#[derive(Clone, Copy)]
pub struct Day<'a, M> {
    /// Where contracts lie, and how they move.
    pub model: &'a M,
    /// What is entered.
    pub book: &'a Book,
}

impl<'a, M: ScenarioModel> Day<'a, M> {
    /// What the day's positions are valued by.
    pub(crate) fn market(&self) -> Market<'a, M>
        ensures model { result.model.now ≡ self.now.model.now }
        ensures prices { result.prices.now.ticks ≡ (ledger_in self.now.book.now).prices }
    {
        Market {
            model: self.model,
            prices: self.book.prices(),
        }
    }
}
