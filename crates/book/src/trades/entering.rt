//! How trades are entered and read.
ghost use Rattle.std.specs.Prelude.{◌≡◌, ◌<◌, ◌≤◌, true, [], ◌∷◌, ◌++◌, length, Ok, Err, MatchOption, slice_index_or, slice_set};
ghost use Rattle.refusals.specs.declared.Refusal.TheVariants.{Unknown, TableFull};
ghost use Rattle.book.specs.declared.trades.standing.TradeCell.TheVariants.{Empty};
ghost use Rattle.book.specs.Filled.{is_filled, each_filled};
ghost use Rattle.book.specs.Standings.{cell_after, cell_for, change_answer};
ghost use Rattle.book.specs.Tabled.{cells_in};

use crate::trades::TradeTable;
use crate::trades::standing::{Change, Trade, TradeCell};
use cells::rows::Rows;
use refusals::Refusal;
use rules::bounds::MOST_TRADES;

// The cell of a new trade.
fn cell_for(trade: Trade, client: Option<u8>) -> TradeCell
    ensures value { result ≡ cell_for trade client }
    ensures filled { is_filled result ≡ true }
{
    match client {
        Some(client) => TradeCell::Carried(trade, client),
        None => TradeCell::Unspecified(trade),
    }
}

impl TradeTable {
    /// No trade yet: every cell is empty.
    pub fn new() -> TradeTable
        ensures { cells_in result ≡ [] }
    {
        // Kept as a repeated cell: the rules of the project have the table of 1,024 trade cells begin as one empty cell, repeated.
        TradeTable {
            rows: Rows::of([TradeCell::Empty; MOST_TRADES]),
        }
    }

    /// How many trades there are.
    pub fn len(&self) -> usize
        ensures { result ≡ length (cells_in self.now) }
    {
        self.rows.len()
    }

    /// The cells of the trades, none of which is empty.
    pub fn as_slice(&self) -> &[TradeCell]
        ensures value { result.now ≡ cells_in self.now }
        ensures few { length (cells_in self.now) ≤ 1024 }
        ensures filled { each_filled (cells_in self.now) ≡ true }
    {
        self.rows.as_slice()
    }

    /// The cell of a trade, `None` past the last.
    pub fn get(&self, i: usize) -> Option<TradeCell>
        ensures { MatchOption result (length (cells_in self.now) ≤ i) (λ x. (i < length (cells_in self.now)) × (x ≡ slice_index_or (cells_in self.now) i Empty) × (is_filled x ≡ true)) }
    {
        self.rows.get(i)
    }

    /// A trade more, in the first empty cell: carried from yesterday for a client, or with no client yet. Nothing changes where all cells are filled.
    pub fn enter(&mut self, trade: Trade, client: Option<u8>) -> Result<(), Refusal>
        ensures room { length (cells_in self.old) < 1024 → (result ≡ Ok tt) × (cells_in self.new ≡ cells_in self.old ++ cell_for trade client ∷ []) }
        ensures full { 1024 ≤ length (cells_in self.old) → (result ≡ Err TableFull) × (cells_in self.new ≡ cells_in self.old) }
    {
        self.rows
            .push(cell_for(trade, client))
            .or(Err(Refusal::TableFull))
    }

    /// Changes where a trade stands. Past the last trade it is unknown, and nothing changes.
    pub fn change(&mut self, i: usize, change: Change) -> Result<(), Refusal>
        ensures known { i < length (cells_in self.old) → (result ≡ change_answer (slice_index_or (cells_in self.old) i Empty) change) × (cells_in self.new ≡ slice_set (cells_in self.old) i (cell_after (slice_index_or (cells_in self.old) i Empty) change)) }
        ensures past { length (cells_in self.old) ≤ i → (result ≡ Err Unknown) × (cells_in self.new ≡ cells_in self.old) }
    {
        let cell = self.rows.get_mut(i).ok_or(Refusal::Unknown)?;
        cell.change(change)
    }
}
