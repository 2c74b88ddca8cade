//! What the figures of a table are worked out from.

ghost use Rattle.std.specs.Prelude.{◌≡◌, ◌↔◌, [], false, replicate, None, MatchResult, OnOk, IsErrOf};
ghost use Rattle.refusals.specs.Numbers.{refusal_of};
ghost use Rattle.figures.specs.Positions.{positions_of};
ghost use Rattle.inspection.specs.Causes.{sheet_cause};
ghost use Rattle.sheets.specs.Sheets.{empty_table};
ghost use Rattle.sheets.specs.Tables.{table_of, Holds};
ghost use Rattle.tables.specs.declared.examples.Untaken.TheVariants.{OutOfMemory};
ghost use Rattle.tables.specs.Steps.{step_of, stepped};
ghost use Rattle.tables.specs.Taken.{taken, ticks_after, positions_after, taken_if, ticks_after_if, positions_after_if};

use crate::steps::{Step, step_in};
use figures::position::Position;
use figures::prices::Prices;
use refusals::Refusal;
use sheets::kinds::Sheet;
use std::alloc::{AllocFailed, Global};

/// Why a row is not taken over.
#[derive(Clone, Copy)]
pub(crate) enum Untaken {
    /// It says no step, or a price outside the bounds.
    Refused,
    /// There is no memory for one more position.
    OutOfMemory,
}

impl<T: Drop> From<AllocFailed<T>> for Untaken {
    ghost from_gives = { λ _ e. e ≡ OutOfMemory };

    fn from(_: AllocFailed<T>) -> Untaken {
        Untaken::OutOfMemory
    }
}

/// A sheet, market prices and positions.
#[derive(Drop)]
pub struct Example {
    pub(crate) sheet: Sheet,
    pub(crate) prices: Prices,
    pub(crate) positions: Vec<Position>,
}

impl Example {
    /// The empty sheet, with no prices and no positions.
    pub(crate) fn new(heap: Global) -> Example
        ensures sheet { table_of result.sheet ≡ empty_table }
        ensures prices { result.prices.ticks ≡ replicate 256 None }
        ensures positions { result.positions.items ≡ [] }
    {
        Example {
            sheet: Sheet::empty(),
            prices: Prices::new(),
            positions: Vec::new(heap),
        }
    }

    // Takes the prices and the positions away.
    fn clear(&mut self)
        ensures sheet { self.new.sheet ≡ self.old.sheet }
        ensures prices { self.new.prices.ticks ≡ replicate 256 None }
        ensures positions { self.new.positions.items ≡ [] }
    {
        self.prices = Prices::new();
        self.positions.clear();
    }

    /// Takes over the sheet of a file, with no prices and no positions, or refuses the file and stays as it was.
    pub(crate) fn read(&mut self, file: &[u8]) -> Result<(), Refusal>
        ensures answer { refusal_of result ≡ sheet_cause file.now }
        ensures holds { MatchResult result (λ _. Holds self.new.sheet file.now) (λ _. self.new ≡ self.old) }
        ensures blank { OnOk result ((self.new.prices.ticks ≡ replicate 256 None) × (self.new.positions.items ≡ [])) }
    {
        self.sheet.fill(file)?;
        self.clear();
        Ok(())
    }

    // Takes over a step.
    fn take_step(&mut self, step: Step) -> Result<(), Untaken>
        ensures refused { IsErrOf result Untaken.Refused ↔ (taken (step_of step) ≡ false) }
        ensures sheet { self.new.sheet ≡ self.old.sheet }
        ensures prices { self.new.prices.ticks ≡ ticks_after (step_of step) self.old.prices.ticks }
        ensures positions { MatchResult result (λ _. positions_of self.new.positions.items ≡ positions_after (step_of step) (positions_of self.old.positions.items)) (λ _. self.new.positions.items ≡ self.old.positions.items) }
    {
        match step {
            Step::Clear => {
                self.clear();
                Ok(())
            }
            Step::Price(contract, ticks) => self
                .prices
                .set(contract, ticks)
                .or(Err(Untaken::Refused)),
            Step::Trade(position) => Ok(self.positions.push(position)?),
        }
    }

    /// Takes over what a word says with numbers. Where it cannot, nothing has changed.
    pub(crate) fn take(&mut self, word: &str, numbers: &[i64]) -> Result<(), Untaken>
        ensures refused { IsErrOf result Untaken.Refused ↔ (taken_if (stepped word.now numbers.now) ≡ false) }
        ensures sheet { self.new.sheet ≡ self.old.sheet }
        ensures prices { self.new.prices.ticks ≡ ticks_after_if (stepped word.now numbers.now) self.old.prices.ticks }
        ensures positions { MatchResult result (λ _. positions_of self.new.positions.items ≡ positions_after_if (stepped word.now numbers.now) (positions_of self.old.positions.items)) (λ _. self.new.positions.items ≡ self.old.positions.items) }
    {
        self.take_step(step_in(word, numbers).ok_or(Untaken::Refused)?)
    }
}
