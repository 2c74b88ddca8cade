//! Each kind of sheet is a scenario model.

ghost use Rattle.std.specs.Prelude.{◌≡◌, ℕ, ◌<◌, pos, if◌then◌else◌, nat_lt};
ghost use Rattle.sheets.specs.Sheets.{empty_table};
ghost use Rattle.sheets.specs.Decoded.{record_in, cell_in};
ghost use Rattle.sheets.specs.Tables.{factor_table, series_table, strike_table, table_of};
ghost use Rattle.sheets.specs.Lawfuls.{empty_lawful};
ghost use Rattle.sheets.specs.Meanings.{factor_lawful, series_lawful, strike_lawful, sheet_lawful};

use crate::index::Index;
use crate::kinds::{EmptySheet, FactorSheet, SeriesSheet, Sheet, StrikeSheet};
use crate::shocks::Shocks;
use scenario::ScenarioModel;

impl Index {
    // The record that a contract has.
    fn record(&self, contract: u8) -> Option<u16>
        ensures { result ≡ record_in self.now.records contract }
    {
        self.records[usize::from(contract)]
    }
}

impl Shocks {
    // The shock of record `j` in a scenario, 0 in a missing one.
    fn at(&self, j: u16, scenario: u8) -> i64
        requires { j < 64 }
        ensures { result ≡ (if nat_lt scenario self.now.scenarios then cell_in self.now.cells j scenario else pos 0) }
    {
        if scenario < self.scenarios {
            i64::from(self.cells[usize::from(j)][usize::from(scenario)])
        } else {
            0
        }
    }
}

impl ScenarioModel for EmptySheet {
    ghost table = { λ m. empty_table };

    ghost lawful = { λ m. empty_lawful };

    fn subportfolios(&self) -> u8 {
        1
    }

    fn scenarios(&self, k: u8) -> u8 {
        if k == 0 { 1 } else { 0 }
    }

    fn place(&self, _contract: u8) -> Option<(u8, u16)> {
        None
    }

    fn shock(&self, _contract: u8, _scenario: u8) -> i64 {
        0
    }
}

impl ScenarioModel for SeriesSheet {
    ghost table = { series_table };

    ghost lawful = { λ m. series_lawful m };

    fn subportfolios(&self) -> u8 {
        1
    }

    fn scenarios(&self, k: u8) -> u8 {
        if k == 0 { self.shocks.scenarios } else { 0 }
    }

    fn place(&self, contract: u8) -> Option<(u8, u16)> {
        self.index.record(contract).map(|_| (0, 0))
    }

    fn shock(&self, contract: u8, scenario: u8) -> i64 {
        self.index
            .record(contract)
            .map_or(0, |j| self.shocks.at(j, scenario))
    }
}

impl ScenarioModel for FactorSheet {
    ghost table = { factor_table };

    ghost lawful = { λ m. factor_lawful m };

    fn subportfolios(&self) -> u8 {
        1
    }

    fn scenarios(&self, k: u8) -> u8 {
        self.series.scenarios(k)
    }

    fn place(&self, contract: u8) -> Option<(u8, u16)> {
        let j = self.series.index.record(contract)?;
        Some((0, self.multipliers.cells[usize::from(j)]))
    }

    fn shock(&self, contract: u8, scenario: u8) -> i64 {
        self.series.shock(contract, scenario)
    }
}

// Kept beside the series, whose place is the same: its scenarios and shocks are not.
impl ScenarioModel for StrikeSheet {
    ghost table = { strike_table };

    ghost lawful = { λ m. strike_lawful m };

    fn subportfolios(&self) -> u8 {
        1
    }

    fn scenarios(&self, k: u8) -> u8 {
        if k == 0 {
            // Kept `as`: an index of strikes counts 63 at most, so that nothing is cut off, and `try_from` would only add an `unwrap`.
            self.index.count as u8 + 1
        } else {
            0
        }
    }

    fn place(&self, contract: u8) -> Option<(u8, u16)> {
        self.index.record(contract).map(|_| (0, 0))
    }

    fn shock(&self, contract: u8, scenario: u8) -> i64 {
        match self.index.record(contract) {
            Some(j) if u16::from(scenario) == j + 1 && u16::from(scenario) <= self.index.count =>
                i64::from(self.payoff),
            _ => 0,
        }
    }
}

impl ScenarioModel for Sheet {
    ghost table = { table_of };

    ghost lawful = { λ m. sheet_lawful m };

    fn subportfolios(&self) -> u8 {
        1
    }

    fn scenarios(&self, k: u8) -> u8 {
        // Kept by arms, here and below: the kinds are closed, and the gate refuses a function that makes a `dyn` value and hands it out.
        match self {
            Sheet::Empty(m) => m.scenarios(k),
            Sheet::Factors(m) => m.scenarios(k),
            Sheet::Series(m) => m.scenarios(k),
            Sheet::Strikes(m) => m.scenarios(k),
        }
    }

    fn place(&self, contract: u8) -> Option<(u8, u16)> {
        match self {
            Sheet::Empty(m) => m.place(contract),
            Sheet::Factors(m) => m.place(contract),
            Sheet::Series(m) => m.place(contract),
            Sheet::Strikes(m) => m.place(contract),
        }
    }

    fn shock(&self, contract: u8, scenario: u8) -> i64 {
        match self {
            Sheet::Empty(m) => m.shock(contract, scenario),
            Sheet::Factors(m) => m.shock(contract, scenario),
            Sheet::Series(m) => m.shock(contract, scenario),
            Sheet::Strikes(m) => m.shock(contract, scenario),
        }
    }
}
