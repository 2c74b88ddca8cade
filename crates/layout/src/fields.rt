//! The fields of the header, of a contract record and of the scenario area. Each takes every file and every place.

#![tactic(auto, unfolding(crate::specs::Fields::record_bytes, crate::specs::Fields::contract_bytes, crate::specs::Fields::scenario_bytes, crate::specs::Fields::number, crate::specs::Fields::second, crate::specs::Fields::exposure, crate::specs::Fields::factor_shock, crate::specs::Fields::series_shock))]

ghost use Rattle.std.specs.Prelude.{◌≡◌, ℕ, ◌+◌, ◌*◌, ◌^◌, ◌<◌};
ghost use Rattle.layout.specs.Fields.{kind, contracts, scenarios, factors, contract_area, scenario_area, stated_length, payoff, record_bytes, contract_bytes, scenario_bytes, number, second, exposure, factor_shock, series_shock};

use crate::bytes::{i32_at, u16_at, u32_at};
use crate::kinds::Kind;

// Kept a function for each field of the header: its name says what stands there, and an offset as a parameter would not.
/// The kind number.
pub fn kind_of(file: &[u8]) -> u16
    ensures { result ≡ kind file.now }
{
    u16_at(file, 0)
}

/// How many contract records there are.
pub fn contract_count(file: &[u8]) -> u16
    ensures { result ≡ contracts file.now }
{
    u16_at(file, 2)
}

/// How many scenarios there are.
pub fn scenario_count(file: &[u8]) -> u16
    ensures { result ≡ scenarios file.now }
{
    u16_at(file, 4)
}

/// How many factors there are.
pub fn factor_count(file: &[u8]) -> u16
    ensures { result ≡ factors file.now }
{
    u16_at(file, 6)
}

/// Where the contract area starts.
pub fn contract_start(file: &[u8]) -> u32
    ensures { result ≡ contract_area file.now }
{
    u32_at(file, 8)
}

/// Where the scenario area starts.
pub fn scenario_start(file: &[u8]) -> u32
    ensures { result ≡ scenario_area file.now }
{
    u32_at(file, 12)
}

/// How long the file says that it is.
pub fn length_field(file: &[u8]) -> u32
    ensures { result ≡ stated_length file.now }
{
    u32_at(file, 16)
}

/// The payoff of a sheet of strikes.
pub fn payoff_field(file: &[u8]) -> u32
    ensures { result ≡ payoff file.now }
{
    u32_at(file, 20)
}

// The bytes of one contract record.
fn record_size(file: &[u8]) -> usize
    ensures value { result ≡ record_bytes file.now }
    ensures bound { result < 2 ^ 19 }
{
    4 + 4 * usize::from(factor_count(file))
}

/// The bytes of the contract area.
pub fn contract_area_size(file: &[u8]) -> usize
    ensures value { result ≡ contract_bytes file.now }
    ensures bound { result < 2 ^ 35 }
{
    usize::from(contract_count(file)) * record_size(file)
}

/// The bytes of the scenario area.
pub fn scenario_area_size(file: &[u8]) -> usize
    ensures value { result ≡ scenario_bytes file.now }
    ensures bound { result < 2 ^ 35 }
{
    match Kind::try_from(kind_of(file)) {
        Ok(Kind::Factors) => 4
            * (usize::from(scenario_count(file)) * usize::from(factor_count(file))),
        Ok(Kind::Series) => 4
            * (usize::from(contract_count(file)) * usize::from(scenario_count(file))),
        _ => 0,
    }
}

// Kept a file and a number, here and in `inspection`: a record is a place in a file, and every definition of a field takes the two.
// The first byte of contract record `j`.
fn record_start(file: &[u8], j: u16) -> usize
    ensures value { result ≡ contract_area file.now + record_bytes file.now * j }
    ensures bound { result < 2 ^ 36 }
{
    contract_start(file) as usize + record_size(file) * usize::from(j)
}

/// The contract number of record `j`.
pub fn number_at(file: &[u8], j: u16) -> u16
    ensures { result ≡ number file.now j }
{
    u16_at(file, record_start(file, j))
}

/// The second field of record `j`: the multiplier in a sheet of factors.
pub fn second_at(file: &[u8], j: u16) -> u16
    ensures { result ≡ second file.now j }
{
    u16_at(file, record_start(file, j) + 2)
}

/// The exposure of record `j` to factor `f`, in centavos.
pub fn exposure_at(file: &[u8], j: u16, f: u16) -> i32
    ensures { result ≡ exposure file.now j f }
{
    i32_at(file, record_start(file, j) + 4 + 4 * usize::from(f))
}

/// The shock of factor `f` in scenario `s`, in ten-thousandths.
pub fn factor_shock_at(file: &[u8], s: u16, f: u16) -> i32
    ensures { result ≡ factor_shock file.now s f }
{
    let word = usize::from(s) * usize::from(factor_count(file)) + usize::from(f);
    i32_at(file, scenario_start(file) as usize + 4 * word)
}

// Kept beside `factor_shock_at`: a sheet of series has a row for each contract, one of factors for each scenario.
/// The shock of record `j` in scenario `s` of a sheet of series, in centavos.
pub fn series_shock_at(file: &[u8], j: u16, s: u16) -> i32
    ensures { result ≡ series_shock file.now j s }
{
    let word = usize::from(j) * usize::from(scenario_count(file)) + usize::from(s);
    i32_at(file, scenario_start(file) as usize + 4 * word)
}
