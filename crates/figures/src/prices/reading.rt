//! How prices are set and read.
ghost use Rattle.std.specs.Prelude.{◌≡◌, ◌≤◌, set, replicate, if◌then◌else◌, Some, None, is_ok, slice_set};
ghost use Rattle.figures.specs.Markets.{has_price};
ghost use Rattle.figures.specs.Priced.{price_at, priced, fair_price};

use crate::bounds::{CONTRACTS, MOST_PRICE};
use crate::prices::{Prices, UnfairPrice};

impl Prices {
    /// No contract has a price.
    pub fn new() -> Prices
        ensures { result.ticks ≡ replicate 256 None }
    {
        Prices {
            ticks: [None; CONTRACTS],
        }
    }

    /// Sets a contract's price. Refused, with nothing changed, where the price is 0 or above 100,000.
    pub fn set(&mut self, contract: u8, price: u32) -> Result<(), UnfairPrice>
        ensures said { is_ok result ≡ fair_price price }
        ensures after { self.new.ticks ≡ (if fair_price price then slice_set self.old.ticks contract (Some price) else self.old.ticks) }
    {
        if !(1..=MOST_PRICE).contains(&price) {
            return Err(UnfairPrice);
        }
        let place = usize::from(contract);
        self.ticks[place] = Some(price);
        Ok(())
    }

    /// The contract's price, `None` where it has none.
    pub fn get(&self, contract: u8) -> Option<u32>
        ensures { result ≡ price_at self.now.ticks contract }
    {
        self.ticks[usize::from(contract)]
    }

    /// Whether the contract has a price.
    pub(crate) fn has(&self, contract: u8) -> bool
        ensures { result ≡ has_price self.now contract }
    {
        self.get(contract).is_some()
    }

    /// The contract's price, 0 where it has none.
    pub(crate) fn ticks_of(&self, contract: u8) -> u32
        ensures value { result ≡ priced self.now.ticks contract }
        ensures small { result ≤ 100000 }
    {
        self.get(contract).unwrap_or(0)
    }
}
