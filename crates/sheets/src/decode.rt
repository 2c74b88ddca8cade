//! The numbers of an accepted file.

#![tactic(auto, unfolding(crate::specs::Cells::shock_cell, crate::specs::Cells::multiplier_cell, crate::specs::Sheets::record_shock))]

ghost use Rattle.std.specs.Prelude.{◌≡◌, ℕ, ◌<◌, ◌≤◌, pos, ◌*ℤ◌, slice_index, slice_index_or, unsigned_abs};
ghost use Rattle.layout.specs.Fields.{kind, contracts, scenarios, factors, second, exposure, factor_shock};
ghost use Rattle.rounding.specs.Rounding.{parts, nearest};
ghost use Rattle.sheets.specs.Sheets.{find, moved_by_factors, record_shock};
ghost use Rattle.sheets.specs.Cells.{shock_cell, multiplier_cell, IsRow};
ghost use Rattle.sheets.specs.Decoded.{record_in, cell_in};

use crate::accepted::{Accepted, FactorCell};
use crate::index::Index;
use crate::multipliers::Multipliers;
use crate::shocks::Shocks;
use inspection::Kind;
use layout::fields::{
    contract_count, exposure_at, factor_count, factor_shock_at, number_at, payoff_field,
    scenario_count, second_at, series_shock_at,
};
use rounding::rounded;
use std::array;

// The first record with a contract's number, if one has it.
fn find_record(file: &[u8], contract: usize) -> Option<u16>
    ensures { result ≡ find file.now contract (contracts file.now) }
{
    (0..contract_count(file)).find(|&j| usize::from(number_at(file, j)) == contract)
}

// The multiplier of record `j`, 0 where there is none.
fn multiplier_at(file: &[u8], j: usize) -> u16
    ensures { result ≡ multiplier_cell file.now j }
{
    let count = contract_count(file);
    match u16::try_from(j) {
        Ok(record) if record < count => second_at(file, record),
        _ => 0,
    }
}

impl Accepted<'_> {
    pub(crate) fn read_index(&self) -> Index
        ensures count { result.count ≡ contracts self.now.file.now }
        ensures records { (c : ℕ) → record_in result.records c ≡ find self.now.file.now c (contracts self.now.file.now) }
    {
        Index {
            count: contract_count(self.file),
            records: array::from_fn(|c| find_record(self.file, c)),
        }
    }

    pub(crate) fn read_multipliers(&self) -> Multipliers
        requires { kind self.now.file.now ≡ 1 }
        ensures { (j : ℕ) → j < contracts self.now.file.now → slice_index result.cells j ≡ second self.now.file.now j }
    {
        Multipliers {
            cells: array::from_fn(|j| multiplier_at(self.file, j)),
        }
    }

    // The gain of one bought contract of record `j` in scenario `s`.
    fn shock_of(&self, j: u16, s: u16) -> i32
        requires known { j < contracts self.now.file.now }
        requires stated { s < scenarios self.now.file.now }
        ensures { result ≡ record_shock self.now.file.now j s }
    {
        match self.of {
            Kind::Factors => FactorCell {
                file: self.file,
                j,
                s,
            }
            .gain(),
            Kind::Series => series_shock_at(self.file, j, s),
            Kind::Strikes => if s == j + 1 {
                payoff_field(self.file).cast_signed()
            } else {
                0
            },
        }
    }

    // The shock of record `j` in scenario `s`, 0 where there is none.
    fn cell_at(&self, j: usize, s: usize) -> i32
        ensures { result ≡ shock_cell self.now.file.now j s }
    {
        let records = contract_count(self.file);
        let scenarios = scenario_count(self.file);
        match (u16::try_from(j), u16::try_from(s)) {
            (Ok(record), Ok(scenario)) if record < records && scenario < scenarios => self.shock_of(
                record, scenario,
            ),
            _ => 0,
        }
    }

    fn row_at(&self, j: usize) -> [i32; 64]
        ensures { IsRow self.now.file.now j result }
    {
        array::from_fn(|s| self.cell_at(j, s))
    }

    pub(crate) fn read_shocks(&self) -> Shocks
        ensures scenarios { result.scenarios ≡ scenarios self.now.file.now }
        ensures cells { (j s : ℕ) → j < contracts self.now.file.now → s < scenarios self.now.file.now → cell_in result.cells j s ≡ record_shock self.now.file.now j s }
    {
        Shocks {
            // Kept `as`, here and in `gain`: an accepted file has 64 scenarios at most and small gains, so that nothing is cut off, and
            // `try_from` would only add an `unwrap` to each.
            scenarios: scenario_count(self.file) as u8,
            cells: array::from_fn(
                |j|
                    ensures { IsRow self.entry.now.file.now j result }
                { self.row_at(j) },
            ),
        }
    }
}

impl FactorCell<'_> {
    // One exposure times its factor's shock.
    fn part(&self, f: u16) -> i64
        requires { f < factors self.now.file.now }
        ensures value { result ≡ exposure self.now.file.now self.now.j f *ℤ factor_shock self.now.file.now self.now.s f }
        ensures bound { unsigned_abs result ≤ 125000000000 }
    {
        i64::from(exposure_at(self.file, self.j, f))
            * i64::from(factor_shock_at(self.file, self.s, f))
    }

    fn total(&self) -> i64
        ensures { result ≡ moved_by_factors self.now.file.now self.now.j self.now.s }
    {
        (0..factor_count(self.file)).map(|f| self.part(f)).sum()
    }

    // The gain of one bought contract of the record in the scenario.
    fn gain(&self) -> i32
        ensures { result ≡ nearest parts (moved_by_factors self.now.file.now self.now.j self.now.s) }
    {
        rounded(self.total()) as i32
    }
}
