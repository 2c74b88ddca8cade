//! A table of cells that lends one of them for change.
ghost use Rattle.std.specs.Prelude.{◌≡◌, ◌<◌, ◌≤◌, length, take, MatchOption, slice_index_or, slice_set};
ghost use Rattle.std.specs.Borrow.{sem, follows, follows_if};
ghost use Rattle.std.specs.Option.{ghost_name_of as name_of};
ghost use Rattle.cells.specs.contracts.cells.Cells.{the_row};

/// A table of `N` cells.
// A struct of its own, and the room of `Rows` too, so that a contract can say what the loan of one cell leaves.
#[derive(Clone, Copy)]
pub struct Cells<T, const N: usize> {
    pub(crate) at: [T; N],
}

impl<T, const N: usize> Cells<T, N> {
    ghost use Rattle.cells.specs.Front.{lends_front};

    /// A table of the given cells.
    pub fn of(at: [T; N]) -> Cells<T, N>
        ensures { result ≡ record { at = at } }
    {
        Cells { at }
    }

    // The cell at a place.
    pub(crate) fn cell(&mut self, i: usize) -> &mut T
        requires { i < N }
        ensures* writes_back { sem 𝓛 (follows (the_row T.row N.row) T.row self.entry.ghost_name result.ghost_name (λ w. record { at = slice_set self.old.at i w })) }
        ensures facts { (length self.old.at ≡ N) × (result.now ≡ slice_index_or self.old.at i result.now) }
    {
        &mut self.at[i]
    }

    /// Lends the cell at a place: when the loan ends, that cell holds what was left there, and every other what it held. `None` past the last.
    pub fn get_mut(&mut self, i: usize) -> Option<&mut T>
        ensures* writes_back { sem 𝓛 (follows_if (the_row T.row N.row) T.row self.entry.ghost_name (name_of result) (λ w. record { at = slice_set self.old.at i w }) self.old) }
        ensures facts { MatchOption result (N ≤ i) (λ x. (i < N) × (length self.old.at ≡ N) × (x.now ≡ slice_index_or self.old.at i x.now)) }
    {
        if i >= N {
            return None;
        }
        Some(self.cell(i))
    }

    /// All cells.
    pub fn as_slice(&self) -> &[T]
        ensures { (result.now ≡ self.now.at) × (length self.now.at ≡ N) }
    {
        &self.at
    }

    // The first cells.
    pub(crate) fn front_mut(&mut self, len: usize) -> &mut [T]
        requires { len ≤ N }
        ensures* writes_back { sem 𝓛 (lends_front T.row N.row self.entry result) }
        ensures value { result.now ≡ take len self.old.at }
    {
        &mut self.at[..len]
    }
}
