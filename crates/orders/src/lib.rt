//! The words in which a day is ordered: sides, holders, lots, and the orders themselves. Numbers, quantities, prices and amounts are as wide as their types: what lies outside a range can be said, and is refused by the call.

#![tactic(auto)]

/// Which way a trade goes.
#[derive(Clone, Copy, Debug, PartialEq, Eq)]
pub enum Side {
    /// The contracts were bought.
    Buy,
    /// The contracts were sold.
    Sell,
}

/// Whose collateral it is.
#[derive(Clone, Copy, Debug, PartialEq, Eq)]
pub enum Holder {
    /// A client's.
    Client(u64),
    /// A trader's own.
    Trader(u64),
    /// The member's in favour of a trader.
    Member(u64),
}

/// What was traded: how many of a contract, which way, and at which price in ticks.
#[derive(Clone, Copy, Debug, PartialEq, Eq)]
pub struct Lot {
    /// The contract's number.
    pub contract: u64,
    /// Bought or sold.
    pub side: Side,
    /// How many contracts.
    pub quantity: u64,
    /// The price in ticks.
    pub price: u64,
}

/// An order of the day. Money is in centavos.
#[derive(Clone, Copy, Debug, PartialEq, Eq)]
pub enum Order {
    /// A trader, with its intraday limit and its default count.
    Trader(i64, i64),
    /// A client of a trader.
    Client(u64),
    /// A client's position from yesterday, at yesterday's settlement price.
    Carry(u64, Lot),
    /// The market price of a contract.
    Price(u64, u64),
    /// Collateral for a holder.
    Deposit(Holder, i64),
    /// The preparation ends, and the session begins.
    Open,
    /// A trade of a trader, which has no client yet.
    Trade(u64, Lot),
    /// A trade goes to a client.
    Specify(u64, u64),
    /// A trade is taken from its client again.
    Cancel(u64),
    /// Collateral of a holder is handed out against a slip.
    Withdraw(Holder, i64),
    /// The slip with a serial is settled.
    Settle(u64),
    /// The slip with a serial is put back.
    PutBack(u64),
    /// A client's settlement amount.
    Cash(u64, i64),
    /// The settlement window has passed.
    Window,
    /// A trader's statement.
    Statement(u64),
    /// The slip at a place of the purse that was brought from another session is settled here.
    SettleBrought(usize),
    /// The slip at a place of the purse that was brought from another session is put back here.
    PutBackBrought(usize),
}
