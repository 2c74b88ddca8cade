//! The kinds of sheet, as values.

ghost use Rattle.std.specs.Prelude.{◌≤◌};

use crate::index::Index;
use crate::multipliers::Multipliers;
use crate::shocks::Shocks;

/// The sheet that knows no contract, with one scenario.
#[derive(Clone, Copy)]
pub struct EmptySheet;

/// A sheet of series: contracts have a shock in each scenario.
#[derive(Clone, Copy)]
pub struct SeriesSheet {
    pub(crate) index: Index,
    pub(crate) shocks: Shocks,
}

// Kept beside the series, and no row of a struct with its shocks: a series has no multipliers.
/// A sheet of factors: contracts have a multiplier, and a shock in each scenario from their exposures to factors that
/// move.
#[derive(Clone, Copy)]
pub struct FactorSheet {
    pub(crate) series: SeriesSheet,
    pub(crate) multipliers: Multipliers,
}

/// A sheet of strikes: each contract gains the payoff in one scenario of its own.
#[derive(Clone, Copy)]
pub struct StrikeSheet {
    pub(crate) index: Index,
    pub(crate) payoff: u32,
    ghost small: { payoff ≤ 100000000 },
    ghost narrow: { index.count ≤ 63 },
}

/// A sheet of one of the kinds, or the empty one.
#[derive(Clone, Copy)]
pub enum Sheet {
    /// No file was read.
    Empty(EmptySheet),
    /// A file of factors was read.
    Factors(FactorSheet),
    /// A file of series was read.
    Series(SeriesSheet),
    /// A file of strikes was read.
    Strikes(StrikeSheet),
}
