//! Where a trade stands, and how that changes.
ghost use Rattle.std.specs.Prelude.{◌≡◌};
ghost use Rattle.book.specs.Standings.{cell_after, change_answer};

use figures::position::Position;
use refusals::Refusal;

/// A trade: whose it is, and what was traded.
#[derive(Clone, Copy, Debug, PartialEq, Eq)]
pub struct Trade {
    /// Its trader's number.
    pub trader: u8,
    /// The contract, how many of it, and at which price.
    pub position: Position,
}

/// The cell of a trade.
#[derive(Clone, Copy, Debug, PartialEq, Eq)]
pub enum TradeCell {
    /// No trade is in it.
    Empty,
    /// The trade has no client yet.
    Unspecified(Trade),
    /// The trade was given to a client.
    Specified(Trade, u8),
    /// The position was carried from yesterday, for a client.
    Carried(Trade, u8),
}

// Kept as what is asked, beside the state: the rules of the project have a trade's own method match its state together with what is asked,
// that it goes to a client or is taken from it.
/// What can be asked of a trade.
#[derive(Clone, Copy, Debug, PartialEq, Eq)]
pub enum Change {
    /// That it goes to a client.
    Specify(u8),
    /// That it is taken from its client again.
    Cancel,
}

impl TradeCell {
    /// Changes where the trade stands. Only an unspecified trade goes to a client, and only a specified one is taken from its client again.
    pub fn change(&mut self, change: Change) -> Result<(), Refusal>
        ensures after { self.new ≡ cell_after self.old change }
        ensures said { result ≡ change_answer self.old change }
    {
        let next = match (*self, change) {
            (TradeCell::Unspecified(trade), Change::Specify(client)) => {
                TradeCell::Specified(trade, client)
            }
            (TradeCell::Specified(trade, _), Change::Cancel) => TradeCell::Unspecified(trade),
            _ => return Err(Refusal::WrongState),
        };
        *self = next;
        Ok(())
    }
}
