//! A position: how many of a contract are held, and at which price.
ghost use Rattle.std.specs.Prelude.{◌≤◌, unsigned_abs};

pub mod making;

/// A contract, how many of it are held, and the price in ticks at which they were traded or, for a position from yesterday, settled then.
#[derive(Clone, Copy, Debug, PartialEq, Eq)]
pub struct Position {
    /// The contract's number.
    pub contract: u8,
    /// How many were bought, negative for a sale: 1 to 10,000 either way.
    pub quantity: i32,
    /// The price in ticks: 1 to 100,000.
    pub price: u32,
    ghost some: { 1 ≤ unsigned_abs quantity },
    ghost few: { unsigned_abs quantity ≤ 10000 },
    ghost worth: { 1 ≤ price },
    ghost low: { price ≤ 100000 },
}
