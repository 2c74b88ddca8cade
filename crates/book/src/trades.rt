//! Trades, and the table of their cells.
ghost use Rattle.std.specs.Prelude.{◌≡◌, true};
ghost use Rattle.cells.specs.Listed.{listed};
ghost use Rattle.book.specs.Filled.{each_filled};

use crate::trades::standing::TradeCell;
use cells::rows::Rows;

pub mod entering;
pub mod standing;

/// The trades of a day, in 1,024 cells that are filled from the front.
#[derive(Clone, Copy)]
pub struct TradeTable {
    pub(crate) rows: Rows<TradeCell, 1024>,
    ghost filled: { each_filled (listed rows) ≡ true },
}
