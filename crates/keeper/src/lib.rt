//! The keeper of the largest: over n lent cells it holds the n greatest of the records that it is offered, greatest first.

#![tactic(auto)]

ghost use Rattle.std.specs.Prelude.{◌≡◌, ◌+◌, ◌≤◌, min, Bool, length, take, drop};
ghost use Rattle.std.specs.Cmp.{IsStrictWeakOrder};
ghost use Rattle.std.specs.List.{position_or_len};
ghost use Rattle.keeper.specs.Order.{Apart};
ghost use Rattle.keeper.specs.Kept.{insert, kept, left_out};
ghost use Rattle.keeper.specs.Greatest.{Greatest, OnlyGreatest, AnyOrder};
ghost use Rattle.keeper.specs.Cells.{cells_of, width, held_by};

mod lent;

pub use lent::Keeper;

/// Records with a total order, under which no two different ones tie.
// Kept as an order of its own, which asks no `Ord` of the records. Those that have one, with `total` for its law, give `ahead_by cmp`
// (specs/Order) for `before`, and `ahead_ranks cmp total` (proofs/Greatest) for `ranks`.
pub trait Ranked: Copy {
    /// Whether the first record stands strictly ahead of the second.
    ghost before: { Self → Self → Bool };

    /// Whether this record stands strictly ahead of `other`.
    fn outranks(&self, other: &Self) -> bool
        ensures { result ≡ before self.now other.now };

    /// Any two records compare.
    ghost ranks: { IsStrictWeakOrder before };

    /// Two records of which neither is before the other are one.
    ghost apart: { Apart before };
}

impl<'a, T: Ranked> Keeper<'a, T> {
    /// A keeper over `cells` that holds nothing yet. What the cells hold is no offer.
    pub fn new(cells: &'a mut [T]) -> Keeper<'a, T>
        ensures same { cells_of result ≡ cells.old }
        ensures lent { result.cells.ghost_name ≡ cells.entry.ghost_name }
        ensures none { result.filled ≡ 0 }
    {
        Keeper { cells, filled: 0 }
    }

    /// Takes `x` into its place among the held records. Where all cells were filled, the last then falls out.
    pub fn offer(&mut self, x: T)
        ensures count { self.new.filled ≡ min (width self.old) (self.old.filled + 1) }
        ensures held { held_by self.new ≡ take (width self.old) (insert T.before x (held_by self.old)) }
        ensures rest { drop self.new.filled (cells_of self.new) ≡ drop self.new.filled (cells_of self.old) }
        ensures size { width self.new ≡ width self.old }
        ensures lent { self.new.cells.ghost_name ≡ self.old.cells.ghost_name }
    {
        let place = place_among(self.held(), x);
        if place == self.cells.len() {
            return;
        }
        // The first free cell, or else the last of all, is given up to those that move.
        let last = self.filled.min(self.cells.len() - 1);
        self.cells.copy_within(place..last, place + 1);
        self.cells[place] = x;
        self.filled = last + 1;
    }

    /// The held records, greatest first.
    pub fn held(&self) -> &[T]
        ensures { result.now ≡ held_by self.now }
    {
        &self.cells[..self.filled]
    }

    /// Gives the cells back as they are, and tells how many records are held in them.
    pub fn finish(self) -> usize
        ensures count { result ≡ length (held_by self.entry) }
        ensures same { self.exit.0.now ≡ self.entry.cells.now }
    {
        self.held().len()
    }
}

/// The place of `x` among `held`: ahead of the first record that it outranks, or behind them all.
fn place_among<T: Ranked>(held: &[T], x: T) -> usize
    ensures place { result ≡ position_or_len (T.before x) held.now }
    ensures within { result ≤ length held.now }
{
    held.iter()
        .position(|y| x.outranks(y))
        .unwrap_or(held.len())
}

/// Fills `cells` with the greatest of the `offered` records, greatest first, and tells how many cells are filled.
/// The others keep what they hold. The order of the offers does not matter.
pub fn keep_greatest<T: Ranked>(cells: &mut [T], offered: &[T]) -> usize
    ensures count { result ≡ min (length cells.old) (length offered.now) }
    ensures held { take result cells.new ≡ kept T.before (length cells.old) offered.now }
    ensures rest { drop result cells.new ≡ drop result cells.old }
    ensures greatest { Greatest T.before offered.now (take result cells.new) (left_out T.before (length cells.old) offered.now) }
    ensures only { OnlyGreatest T.before offered.now (take result cells.new) }
    ensures order { AnyOrder T.before (length cells.old) offered.now (take result cells.new) }
{
    let mut keeper = Keeper::new(cells);
    for x in offered {
        keeper.offer(*x);
    }
    keeper.finish()
}
