//! The two times of a day.
ghost use Rattle.std.specs.Prelude.{◌≡◌};

use book::books::Book;
use scenario::ScenarioModel;
use statements::days::Day;

pub mod opened;
pub mod preparing;
pub mod releasing;

// Kept as two generic types, of which the one is moved into the other: so no call of one time can be made in the other.
/// A day that is being prepared, over one model.
#[derive(Drop)]
pub struct Preparation<M> {
    pub(crate) model: M,
    pub(crate) book: Book,
}

/// A day that is open, over one model.
#[derive(Drop)]
pub struct Session<M> {
    pub(crate) model: M,
    pub(crate) book: Book,
}

impl<M: ScenarioModel> Session<M> {
    // What statements are made of, by the session's own book.
    fn day(&self) -> Day<'_, M>
        ensures model { result.model.now ≡ self.now.model }
        ensures book { result.book.now ≡ self.now.book }
    {
        self.day_with(&self.book)
    }

    // The same by another book, such as one on which a call is tried.
    fn day_with<'a>(&'a self, book: &'a Book) -> Day<'a, M>
        ensures model { result.model.now ≡ self.now.model }
        ensures book { result.book.now ≡ book.now }
    {
        Day {
            model: &self.model,
            book,
        }
    }
}
