//! The shocks of the records of a sheet.

ghost use Rattle.std.specs.Prelude.{◌≤◌};
ghost use Rattle.sheets.specs.Decoded.{Within, Unmoved};

// Kept a table of fixed size with a count beside, here and in `index`: sheets use fixed memory, so that no fill can fail for want of it.
/// The shock of each of up to 64 records in each of up to 64 scenarios, in centavos.
#[derive(Clone, Copy)]
pub struct Shocks {
    pub(crate) scenarios: u8,
    pub(crate) cells: [[i32; 64]; 64],
    ghost some: { 1 ≤ scenarios },
    ghost few: { scenarios ≤ 64 },
    ghost within: { Within cells },
    ghost unmoved: { Unmoved cells },
}
