//! Traders.
use crate::funds::Fund;

/// What stands of a trader.
#[derive(Clone, Copy, Debug, Default, PartialEq, Eq)]
pub struct Trader {
    /// The intraday limit.
    pub intraday: Fund,
    /// How many of its clients a bad day may name.
    pub defaults: u8,
    /// Collateral of its own.
    pub own: Fund,
    /// Collateral of the member in its favour.
    pub favour: Fund,
}
