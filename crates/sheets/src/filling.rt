//! A sheet is filled from a file, or stays as it was.

ghost use Rattle.std.specs.Prelude.{◌≡◌, MatchResult};
ghost use Rattle.refusals.specs.Numbers.{refusal_of};
ghost use Rattle.layout.specs.Fields.{kind, contracts};
ghost use Rattle.inspection.specs.Causes.{sheet_cause};
ghost use Rattle.sheets.specs.Sheets.{sheet_table, empty_table};
ghost use Rattle.sheets.specs.Tables.{factor_table, series_table, strike_table, table_of, kind_in, contracts_in, kind_of_sheet, Holds};

use crate::accepted::Accepted;
use crate::kinds::{EmptySheet, FactorSheet, SeriesSheet, Sheet, StrikeSheet};
use inspection::{Kind, inspect};
use layout::fields::payoff_field;
use refusals::Refusal;

impl Accepted<'_> {
    fn read_factors(&self) -> FactorSheet
        requires { kind self.now.file.now ≡ 1 }
        ensures means { factor_table result ≡ sheet_table self.now.file.now }
        ensures counted { result.series.index.count ≡ contracts self.now.file.now }
    {
        let series = SeriesSheet {
            index: self.read_index(),
            shocks: self.read_shocks(),
        };
        FactorSheet {
            series,
            multipliers: self.read_multipliers(),
        }
    }

    fn read_series(&self) -> SeriesSheet
        requires { kind self.now.file.now ≡ 2 }
        ensures means { series_table result ≡ sheet_table self.now.file.now }
        ensures counted { result.index.count ≡ contracts self.now.file.now }
    {
        SeriesSheet {
            index: self.read_index(),
            shocks: self.read_shocks(),
        }
    }

    fn read_strikes(&self) -> StrikeSheet
        requires { kind self.now.file.now ≡ 3 }
        ensures means { strike_table result ≡ sheet_table self.now.file.now }
        ensures counted { result.index.count ≡ contracts self.now.file.now }
    {
        StrikeSheet {
            index: self.read_index(),
            payoff: payoff_field(self.file),
        }
    }

    // The sheet that the file means.
    fn read_sheet(&self) -> Sheet
        ensures { Holds result self.now.file.now }
    {
        match self.of {
            Kind::Factors => Sheet::Factors(self.read_factors()),
            Kind::Series => Sheet::Series(self.read_series()),
            Kind::Strikes => Sheet::Strikes(self.read_strikes()),
        }
    }
}

impl Sheet {
    /// The empty sheet, which has one scenario and knows no contract.
    pub fn empty() -> Sheet
        ensures means { table_of result ≡ empty_table }
        ensures kind { kind_in result ≡ 0 }
        ensures counted { contracts_in result ≡ 0 }
    {
        Sheet::Empty(EmptySheet)
    }

    /// Takes over the numbers of the file, or refuses it by the first cause that holds, and stays as it was.
    pub fn fill(&mut self, file: &[u8]) -> Result<(), Refusal>
        ensures answer { refusal_of result ≡ sheet_cause file.now }
        ensures holds { MatchResult result (λ _. Holds self.new file.now) (λ _. self.new ≡ self.old) }
    {
        let kind = inspect(file)?;
        *self = Accepted { file, of: kind }.read_sheet();
        Ok(())
    }

    /// The kind of the file that filled the sheet, `None` for the empty sheet.
    pub fn kind(&self) -> Option<Kind>
        ensures { result ≡ kind_of_sheet self.now }
    {
        match self {
            Sheet::Empty(_) => None,
            Sheet::Factors(_) => Some(Kind::Factors),
            Sheet::Series(_) => Some(Kind::Series),
            Sheet::Strikes(_) => Some(Kind::Strikes),
        }
    }

    /// How many contracts the sheet knows.
    pub fn contracts(&self) -> u16
        ensures { result ≡ contracts_in self.now }
    {
        match self {
            Sheet::Empty(_) => 0,
            Sheet::Factors(m) => m.series.index.count,
            Sheet::Series(m) => m.index.count,
            Sheet::Strikes(m) => m.index.count,
        }
    }
}
