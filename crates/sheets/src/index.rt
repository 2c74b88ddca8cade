//! Which record of its sheet a contract has.

ghost use Rattle.std.specs.Prelude.{◌≡◌, ◌≤◌, length};
ghost use Rattle.sheets.specs.Decoded.{FewRecords};

/// For each contract number the record that it has, if the sheet knows the contract.
#[derive(Clone, Copy)]
pub struct Index {
    pub(crate) count: u16,
    pub(crate) records: [Option<u16>; 256],
    ghost numbers: { length records ≤ 256 },
    ghost few: { FewRecords records },
    ghost counted: { count ≤ 64 },
}
