//! Rows that are filled from the front.
ghost use Rattle.std.specs.Prelude.{◌≡◌, ◌≤◌, length, ⊤};

use crate::cells::Cells;
use std::alloc::AllocError;

pub mod filling;

/// Up to `N` rows, in the order in which they came. The places behind them hold anything.
// Kept beside the kit's `ArrayVec`: that is no `Copy`, and a session tries each release on a copy of the book.
pub struct Rows<T, const N: usize> {
    pub(crate) cells: Cells<T, N>,
    pub(crate) used: usize,
    ghost within: { used ≤ N },
    ghost long: { length cells.at ≡ N },
}

// Kept by hand: `derive` was tried, and `derive_where` with `T: Copy`; the check refuses both for this struct, which has a type
// parameter and ghost fields (`derive-over-ghost-field`).
impl<T: Copy, const N: usize> Clone for Rows<T, N> {
    ghost is_clone = { λ x y. y ≡ x };

    ghost is_infallible = { λ _. ⊤ };

    fn clone(&self) -> Result<Rows<T, N>, AllocError> {
        Ok(*self)
    }
}

impl<T: Copy, const N: usize> Copy for Rows<T, N> {}
