//! The purse.
ghost use Rattle.std.specs.Prelude.{◌≡◌, ◌≤◌, length};
ghost use Rattle.purses.specs.Slots.{row, slips_at};

use crate::slots::Slots;

pub mod carrying;
pub mod reading;

/// Up to 32 slips that wait to be spent, one behind the other. Like a slip, it is neither copied nor let go.
// Kept beside the kit's `ArrayVec` and the `Rows` of this repository: what comes and goes there has to be a value that may be let go, and a slip is none.
pub struct Purse {
    pub(crate) slots: Slots,
    pub(crate) count: usize,
    ghost packed: { slots.at ≡ row (slips_at slots.at) },
    ghost counted: { count ≡ length (slips_at slots.at) },
    ghost few: { count ≤ 32 },
}
