//! How a position is made and read.
ghost use Rattle.std.specs.Prelude.{◌≡◌};
ghost use Rattle.figures.specs.Positions.{meant, position_if};

use crate::bounds::{MOST_PRICE, MOST_QUANTITY};
use crate::position::Position;

impl Position {
    /// A position of `quantity` contracts, negative for a sale, at `price` ticks. `None` where the quantity is 0 or beyond 10,000 either way, or the price is 0 or above 100,000.
    pub fn new(contract: u8, quantity: i32, price: u32) -> Option<Position>
        ensures { meant result ≡ position_if contract quantity price }
    {
        let few = quantity != 0 && (-MOST_QUANTITY..=MOST_QUANTITY).contains(&quantity);
        if !few || !(1..=MOST_PRICE).contains(&price) {
            return None;
        }
        Some(Position {
            contract,
            quantity,
            price,
        })
    }
}
