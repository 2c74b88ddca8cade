//! Clients.
use crate::funds::Fund;
use figures::cash::Cash;

/// What stands of a client.
#[derive(Clone, Copy, Debug, Default, PartialEq, Eq)]
pub struct Client {
    /// Its trader's number.
    pub trader: u8,
    /// Its collateral.
    pub collateral: Fund,
    /// Its settlement amount of the day.
    pub cash: Cash,
    /// What it needed when the session was opened, in centavos.
    pub opening_need: i64,
}
