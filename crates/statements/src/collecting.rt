//! How positions are collected from the trades.
ghost use Rattle.std.specs.Prelude.{◌≡◌, Bool, ◌&&◌, map, if◌then◌else◌, Some, None};
ghost use Rattle.cells.specs.Listed.{listed};
ghost use Rattle.figures.specs.Positions.{meant, positions_of};
ghost use Rattle.figures.specs.Sums.{only};
ghost use Rattle.rules.specs.Ledger.{Trade};
ghost use Rattle.rules.specs.Limits.{held_by, open_for};
ghost use Rattle.book.specs.Filled.{is_filled};
ghost use Rattle.book.specs.Ledgers.{ledger_in};
ghost use Rattle.book.specs.Means.{trade_in};

use book::books::Book;
use book::trades::standing::TradeCell;
use cells::rows::Rows;
use figures::bounds::MOST_POSITIONS;
use figures::position::Position;

/// Which trades are asked for.
pub(crate) trait Asked {
    ghost asks: { Self → Trade → Bool };

    /// The position of a trade that is asked for, `None` of another, and of an empty cell.
    fn position_in(&self, cell: &TradeCell) -> Option<Position>
        ensures { meant result ≡ (if is_filled cell.now && asks self.now (trade_in cell.now) then Some (trade_in cell.now).position else None) };
}

/// Those of a client, given to it or carried for it.
#[derive(Drop)]
pub(crate) struct HeldBy(pub(crate) u8);

impl Asked for HeldBy {
    ghost asks = { λ asked. held_by asked.0 };

    fn position_in(&self, cell: &TradeCell) -> Option<Position> {
        match *cell {
            TradeCell::Specified(trade, client) | TradeCell::Carried(trade, client) => {
                (client == self.0).then_some(trade.position)
            }
            _ => None,
        }
    }
}

/// Those of a trader that have no client yet.
#[derive(Drop)]
pub(crate) struct OpenFor(pub(crate) u8);

impl Asked for OpenFor {
    ghost asks = { λ asked. open_for asked.0 };

    fn position_in(&self, cell: &TradeCell) -> Option<Position> {
        match *cell {
            TradeCell::Unspecified(trade) => (trade.trader == self.0).then_some(trade.position),
            _ => None,
        }
    }
}

/// The positions of the trades of a book that are asked for, in their order.
pub(crate) fn collect<A: Asked>(book: &Book, asked: &A) -> Rows<Position, 1024>
    ensures { positions_of (listed result) ≡ map (λ t. t.position) (only (A.asks asked.now) (ledger_in book.now).trades) }
{
    // Kept as a repeated position, where other tables begin with a default: a position holds one contract or more, so that none is a plain default.
    let unfilled = Position {
        contract: 0,
        quantity: 1,
        price: 1,
    };
    let mut found = Rows::of([unfilled; MOST_POSITIONS]);
    for cell in book.cells() {
        if let Some(position) = asked.position_in(cell) {
            let _ = found.push(position);
        }
    }
    found
}
