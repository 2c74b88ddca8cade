//! What positions are valued by.
use crate::prices::Prices;

/// A scenario model and the market prices of its contracts: what positions are valued by.
#[derive(Clone, Copy)]
pub struct Market<'a, M> {
    /// Where contracts lie, and how they move.
    pub model: &'a M,
    /// What they are worth now.
    pub prices: &'a Prices,
}
