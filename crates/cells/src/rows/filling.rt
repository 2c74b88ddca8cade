//! What is done with rows.
ghost use Rattle.std.specs.Prelude.{◌≡◌, ◌+◌, ◌-◌, ◌<◌, ◌≤◌, [], ◌∷◌, ◌++◌, length, take, drop, Ok, Err, MatchOption, slice_index_or};
ghost use Rattle.std.specs.Borrow.{sem, follows, follows_if, Lends, Array};
ghost use Rattle.std.specs.Option.{ghost_name_of as name_of};
ghost use Rattle.cells.specs.Listed.{listed};

use crate::cells::Cells;
use crate::rows::Rows;

impl<T, const N: usize> Rows<T, N> {
    ghost use Rattle.cells.specs.contracts.rows.Rows.{the_row};
    ghost use Rattle.cells.specs.Lent.{with_row, with_rows};

    /// No row yet, in the room of `at`.
    pub fn of(at: [T; N]) -> Rows<T, N>
        ensures { listed result ≡ [] }
    {
        Rows {
            cells: Cells { at },
            used: 0,
        }
    }

    /// How many rows there are.
    pub fn len(&self) -> usize
        ensures value { result ≡ length (listed self.now) }
        ensures few { result ≤ N }
    {
        self.used
    }

    /// The rows.
    pub fn as_slice(&self) -> &[T]
        ensures value { result.now ≡ listed self.now }
        ensures few { length (listed self.now) ≤ N }
    {
        &self.cells.at[..self.used]
    }

    // The row at a place.
    fn row(&mut self, i: usize) -> &mut T
        requires { i < length (listed self.old) }
        ensures* writes_back { sem 𝓛 (follows (the_row T.row N.row) T.row self.entry.ghost_name result.ghost_name (with_row self.old i)) }
        ensures value { result.now ≡ slice_index_or (listed self.old) i result.now }
    {
        self.cells.cell(i)
    }

    /// Lends the row at a place: when the loan ends, that row is what was left there, and every other what it was. `None` past the last.
    pub fn get_mut(&mut self, i: usize) -> Option<&mut T>
        ensures* writes_back { sem 𝓛 (follows_if (the_row T.row N.row) T.row self.entry.ghost_name (name_of result) (with_row self.old i) self.old) }
        ensures value { MatchOption result (length (listed self.old) ≤ i) (λ x. (i < length (listed self.old)) × (x.now ≡ slice_index_or (listed self.old) i x.now)) }
    {
        if i >= self.used {
            return None;
        }
        Some(self.row(i))
    }

    /// The rows, for change: when the loan ends, they are what was left there.
    pub fn as_mut_slice(&mut self) -> &mut [T]
        ensures* writes_back { sem 𝓛 (Lends (the_row T.row N.row) (Array T.row 0) self.entry result (with_rows self.old)) }
        ensures value { result.now ≡ listed self.old }
    {
        let used = self.used;
        self.cells.front_mut(used)
    }
}

impl<T: Drop, const N: usize> Rows<T, N> {
    /// A row more, behind the others. It comes back, with nothing changed, where all `N` places are filled.
    pub fn push(&mut self, x: T) -> Result<(), T>
        ensures room { length (listed self.old) < N → (result ≡ Ok tt) × (listed self.new ≡ listed self.old ++ x ∷ []) }
        ensures full { N ≤ length (listed self.old) → (result ≡ Err x) × (listed self.new ≡ listed self.old) }
    {
        if self.used >= N {
            return Err(x);
        }
        self.cells.at[self.used] = x;
        self.used += 1;
        Ok(())
    }
}

impl<T: Copy, const N: usize> Rows<T, N> {
    /// No row yet.
    pub fn new() -> Rows<T, N>
    where
        T: Default,
        ensures { listed result ≡ [] }
    {
        Rows::of([T::default(); N])
    }

    /// The row at a place, `None` past the last.
    pub fn get(&self, i: usize) -> Option<T>
        ensures { MatchOption result (length (listed self.now) ≤ i) (λ x. (i < length (listed self.now)) × (x ≡ slice_index_or (listed self.now) i x)) }
    {
        self.as_slice().get(i).copied()
    }

    /// Rows more, behind the others, as far as there is room for them.
    pub fn extend_from_slice(&mut self, rows: &[T])
        ensures { listed self.new ≡ take N (listed self.old ++ rows.now) }
    {
        let count = rows.len().min(N - self.used);
        let end = self.used + count;
        let cells = &mut self.cells.at[..];
        cells[self.used..end].copy_from_slice(&rows[..count]);
        self.used = end;
    }

    /// Takes every row away.
    pub fn clear(&mut self)
        ensures { listed self.new ≡ [] }
    {
        self.used = 0;
    }

    /// Takes the row at a place away: those behind it move up. Nothing changes past the last.
    pub fn remove(&mut self, i: usize)
        ensures { listed self.new ≡ take i (listed self.old) ++ drop (i + 1) (listed self.old) }
    {
        if i < self.used {
            self.cells.at.copy_within(i + 1..self.used, i);
            self.used -= 1;
        }
    }
}
