//! Tables of fixed room, which ask for no memory: cells of which one can be lent for change, and rows that are filled from the front,
//! of which one can be lent too.

#![tactic(auto)]

mod cells;
pub mod rows;

pub use cells::Cells;
