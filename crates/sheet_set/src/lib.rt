//! Up to eight sheets as one scenario model: nested pairs of eight places.

#![tactic(auto)]

ghost use Rattle.std.specs.Prelude.{◌≡◌, ℕ, ◌+◌, ◌<◌, ◌≤◌, map, replicate, MatchOption, slice_index_or};
ghost use Rattle.refusals.specs.Numbers.{refusal_of};
ghost use Rattle.inspection.specs.Causes.{sheet_cause};
ghost use Rattle.sheets.specs.Tables.{kind_in};
ghost use Rattle.sheet_set.specs.Places.{sheets_of, Filled, Added};

pub mod sets;

use inspection::inspect;
use refusals::Refusal;
use scenario::Pair;
use sets::{Eight, SheetSet, Two};
use sheets::kinds::Sheet;

/// The most sheets in a set.
pub const MOST_SHEETS: u8 = 8;

// Two empty sheets.
fn two() -> Two
    ensures { (kind_in result.first ≡ 0) × (kind_in result.second ≡ 0) }
{
    Pair {
        first: Sheet::empty(),
        second: Sheet::empty(),
    }
}

// Fills the sheet at a place.
// Kept by arms, here and in `sheet`: two models in one are a pair, so that the set is a nest of pairs, and each arm names one way through it.
fn fill_at(sheets: &mut Eight, place: u8, file: &[u8]) -> Result<(), Refusal>
    requires { place < 8 }
    ensures answer { refusal_of result ≡ sheet_cause file.now }
    ensures holds { Filled result file.now place sheets.old sheets.new }
{
    match place {
        0 => sheets.first.first.first.fill(file),
        1 => sheets.first.first.second.fill(file),
        2 => sheets.first.second.first.fill(file),
        3 => sheets.first.second.second.fill(file),
        4 => sheets.second.first.first.fill(file),
        5 => sheets.second.first.second.fill(file),
        6 => sheets.second.second.first.fill(file),
        _ => sheets.second.second.second.fill(file),
    }
}

impl SheetSet {
    /// A set that has read no sheet: eight empty ones.
    pub fn new() -> SheetSet
        ensures none { result.read ≡ 0 }
        ensures empty { map kind_in (sheets_of result.sheets) ≡ replicate 8 0 }
    {
        let first = Pair {
            first: two(),
            second: two(),
        };
        let second = Pair {
            first: two(),
            second: two(),
        };
        SheetSet {
            sheets: Pair { first, second },
            read: 0,
        }
    }

    /// Reads a file into the next place, and answers which that was; `None` for an accepted file where all are taken.
    /// A refused file takes no place.
    pub fn add(&mut self, file: &[u8]) -> Result<Option<u8>, Refusal>
        ensures answer { refusal_of result ≡ sheet_cause file.now }
        ensures added { Added result file.now self.old self.new }
    {
        let place = self.read;
        if place >= MOST_SHEETS {
            return inspect(file).map(|_| None);
        }
        fill_at(&mut self.sheets, place, file)?;
        self.read = place + 1;
        Ok(Some(place))
    }

    /// The sheet at a place, `None` from 8 on.
    pub fn sheet(&self, place: u8) -> Option<&Sheet>
        ensures { MatchOption result (8 ≤ place) (λ x. (place < 8) × (x.now ≡ slice_index_or (sheets_of self.now.sheets) place x.now)) }
    {
        match place {
            0 => Some(&self.sheets.first.first.first),
            1 => Some(&self.sheets.first.first.second),
            2 => Some(&self.sheets.first.second.first),
            3 => Some(&self.sheets.first.second.second),
            4 => Some(&self.sheets.second.first.first),
            5 => Some(&self.sheets.second.first.second),
            6 => Some(&self.sheets.second.second.first),
            7 => Some(&self.sheets.second.second.second),
            _ => None,
        }
    }

    /// The sheets as one model.
    pub fn model(&self) -> &Eight
        ensures { result.now ≡ self.now.sheets }
    {
        &self.sheets
    }

    /// How many sheets were read.
    pub fn len(&self) -> usize
        ensures { result ≡ self.now.read }
    {
        usize::from(self.read)
    }

    /// The sheets, handed over as one model.
    pub fn into_model(self) -> Eight
        ensures { result ≡ self.sheets }
    {
        let SheetSet { sheets, read: _ } = self;
        sheets
    }
}
