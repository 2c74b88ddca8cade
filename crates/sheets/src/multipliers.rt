//! The multipliers of the records of a sheet.

ghost use Rattle.sheets.specs.Decoded.{SmallMultipliers};

/// The multiplier of each record, in centavos for each tick.
#[derive(Clone, Copy)]
pub struct Multipliers {
    pub(crate) cells: [u16; 64],
    ghost small: { SmallMultipliers cells },
}
