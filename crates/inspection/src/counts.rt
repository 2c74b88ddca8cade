//! The causes that the header alone can give: length, kind, counts and areas.

#![tactic(auto, unfolding(crate::specs::Causes::wrong_length, crate::specs::Causes::wrong_kind, crate::specs::Causes::right_counts, crate::specs::Causes::overlap, crate::specs::Causes::wrong_area))]

ghost use Rattle.std.specs.Prelude.{◌≡◌};
ghost use Rattle.inspection.specs.Causes.{wrong_length, wrong_kind, right_counts, overlap, wrong_area};

use layout::fields::{
    contract_area_size, contract_count, contract_start, factor_count, kind_of, length_field,
    scenario_area_size, scenario_count, scenario_start,
};
use layout::kinds::Kind;

/// The bytes of the header: the shortest file, and the first byte that an area may have.
const HEADER: usize = 24;

/// The longest file, in bytes.
const LONGEST: usize = 65_536;

/// The most contracts of a sheet of factors or series.
const MOST_CONTRACTS: u16 = 64;

/// The most contracts of a sheet of strikes.
const MOST_STRIKES: u16 = 63;

/// The most scenarios.
const MOST_SCENARIOS: u16 = 64;

/// The most factors.
const MOST_FACTORS: u16 = 8;

pub(crate) fn has_wrong_length(file: &[u8]) -> bool
    ensures { result ≡ wrong_length file.now }
{
    !(HEADER..=LONGEST).contains(&file.len()) || length_field(file) as usize != file.len()
}

pub(crate) fn has_wrong_kind(file: &[u8]) -> bool
    ensures { result ≡ wrong_kind file.now }
{
    Kind::try_from(kind_of(file)).is_err()
}

// A file of no known kind is counted as one of strikes, as the definition says.
pub(crate) fn has_right_counts(file: &[u8]) -> bool
    ensures { result ≡ right_counts file.now }
{
    let n = contract_count(file);
    let s = scenario_count(file);
    let f = factor_count(file);
    match Kind::try_from(kind_of(file)) {
        Ok(Kind::Factors) => (1..=MOST_CONTRACTS).contains(&n)
            && (1..=MOST_SCENARIOS).contains(&s)
            && (1..=MOST_FACTORS).contains(&f),
        Ok(Kind::Series) => (1..=MOST_CONTRACTS).contains(&n)
            && (1..=MOST_SCENARIOS).contains(&s)
            && f == 0,
        Ok(Kind::Strikes) | Err(_) => (1..=MOST_STRIKES).contains(&n) && s == n + 1 && f == 0,
    }
}

// An area without bytes overlaps nothing.
fn has_overlap(file: &[u8]) -> bool
    ensures { result ≡ overlap file.now }
{
    let a = contract_start(file) as usize;
    let b = scenario_start(file) as usize;
    let m = contract_area_size(file);
    let n = scenario_area_size(file);
    0 < m && 0 < n && a < b + n && b < a + m
}

pub(crate) fn has_wrong_area(file: &[u8]) -> bool
    ensures { result ≡ wrong_area file.now }
{
    let a = contract_start(file) as usize;
    let b = scenario_start(file) as usize;
    let m = contract_area_size(file);
    let n = scenario_area_size(file);
    a < HEADER || file.len() < a + m || b < HEADER || file.len() < b + n || has_overlap(file)
}
