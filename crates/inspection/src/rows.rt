//! The causes that the contract records and the scenario area can give.

#![tactic(auto, unfolding(crate::specs::Causes::right_numbers, crate::specs::Causes::right_record, crate::specs::Causes::right_fields, crate::specs::Causes::unmoved_first))]

ghost use Rattle.std.specs.Prelude.{◌≡◌, ◌&&◌, nat_eq};
ghost use Rattle.layout.specs.Fields.{contracts, scenarios, second};
ghost use Rattle.inspection.specs.Tests.{every, within};
ghost use Rattle.inspection.specs.Causes.{right_numbers, right_record, factors_within, series_within, right_fields, unmoved_first};

use layout::fields::{
    contract_count, exposure_at, factor_count, factor_shock_at, kind_of, number_at, payoff_field,
    scenario_count, second_at, series_shock_at,
};
use layout::kinds::Kind;

/// The highest contract number.
const HIGHEST_NUMBER: u16 = 255;

/// The largest multiplier, in centavos for each tick.
const MOST_MULTIPLIER: u16 = 10_000;

/// The largest exposure, in centavos.
const MOST_EXPOSURE: u32 = 12_500_000;

/// The largest shock of a factor, in ten-thousandths.
const MOST_FACTOR_SHOCK: u32 = 10_000;

/// The largest shock of a contract, in centavos.
const MOST_SHOCK: u32 = 100_000_000;

/// The largest payoff, in centavos.
const MOST_PAYOFF: u32 = 100_000_000;

// Whether an amount lies within a limit of zero.
#[tactic(auto, unfolding(crate::specs::Tests::within))]
fn is_within(limit: u32, amount: i32) -> bool
    ensures { result ≡ within limit amount }
{
    amount.unsigned_abs() <= limit
}

pub(crate) fn has_right_numbers(file: &[u8]) -> bool
    ensures { result ≡ right_numbers file.now }
{
    let count = contract_count(file);
    (0..count).all(|j| number_at(file, j) <= HIGHEST_NUMBER)
        && (0..count.saturating_sub(1)).all(|j| number_at(file, j) < number_at(file, j + 1))
}

// Kept a file and a number, here and below: a record is a place in a file, and every definition of a field takes the two.
fn is_right_record(file: &[u8], j: u16) -> bool
    ensures { result ≡ right_record file.now j }
{
    second_at(file, j) <= MOST_MULTIPLIER
        && (0..factor_count(file)).all(|f| is_within(MOST_EXPOSURE, exposure_at(file, j, f)))
}

fn has_factors_within(file: &[u8], limit: u32, s: u16) -> bool
    ensures { result ≡ factors_within file.now limit s }
{
    (0..factor_count(file)).all(|f| is_within(limit, factor_shock_at(file, s, f)))
}

// Kept beside `has_factors_within`: each says one definition of the rules, and goes over the row that its kind has.
fn has_series_within(file: &[u8], limit: u32, j: u16) -> bool
    ensures { result ≡ series_within file.now limit j }
{
    (0..scenario_count(file)).all(|s| is_within(limit, series_shock_at(file, j, s)))
}

// Whether the contract records and the scenario rows of a sheet of factors are right.
fn has_right_factors(file: &[u8]) -> bool
    ensures { result ≡ (every (contracts file.now) (right_record file.now) && every (scenarios file.now) (factors_within file.now 10000)) }
{
    (0..contract_count(file)).all(|j| is_right_record(file, j))
        && (0..scenario_count(file)).all(|s| has_factors_within(file, MOST_FACTOR_SHOCK, s))
}

fn has_zero_seconds(file: &[u8]) -> bool
    ensures { result ≡ every (contracts file.now) (λ j. nat_eq (second file.now j) 0) }
{
    (0..contract_count(file)).all(|j| second_at(file, j) == 0)
}

fn has_right_series(file: &[u8]) -> bool
    ensures { result ≡ every (contracts file.now) (series_within file.now 100000000) }
{
    (0..contract_count(file)).all(|j| has_series_within(file, MOST_SHOCK, j))
}

// A file of no known kind has no payoff and no multipliers, as the definition says.
pub(crate) fn has_right_fields(file: &[u8]) -> bool
    ensures { result ≡ right_fields file.now }
{
    let payoff = payoff_field(file);
    match Kind::try_from(kind_of(file)) {
        Ok(Kind::Factors) => payoff == 0 && has_right_factors(file),
        Ok(Kind::Series) => payoff == 0 && has_zero_seconds(file) && has_right_series(file),
        Ok(Kind::Strikes) => (1..=MOST_PAYOFF).contains(&payoff) && has_zero_seconds(file),
        Err(_) => payoff == 0 && has_zero_seconds(file),
    }
}

// A file of no known kind has no shocks, and neither has one of strikes.
pub(crate) fn starts_unmoved(file: &[u8]) -> bool
    ensures { result ≡ unmoved_first file.now }
{
    match Kind::try_from(kind_of(file)) {
        Ok(Kind::Factors) => has_factors_within(file, 0, 0),
        Ok(Kind::Series) => (0..contract_count(file)).all(|j| is_within(
            0,
            series_shock_at(file, j, 0),
        )),
        Ok(Kind::Strikes) | Err(_) => true,
    }
}
