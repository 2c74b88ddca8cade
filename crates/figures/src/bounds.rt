//! How many and how large things may be. From these bounds every sum of the figures fits 64 bits.

/// How many contracts there can be.
pub const CONTRACTS: usize = 256;

/// The most contracts that one position holds, bought or sold.
pub const MOST_QUANTITY: i32 = 10_000;

/// The highest price in ticks.
pub const MOST_PRICE: u32 = 100_000;

/// The most positions that stand in one list.
pub const MOST_POSITIONS: usize = 1024;

/// The most subportfolios of a model.
pub const MOST_SUBPORTFOLIOS: usize = scenario::MOST_SUBPORTFOLIOS as usize;

/// The most scenarios of a subportfolio.
pub(crate) const MOST_SCENARIOS: usize = 64;

/// The largest settlement amount of a client, in centavos, either way.
pub const MOST_CASH: i64 = 10_000_000_000_000;
