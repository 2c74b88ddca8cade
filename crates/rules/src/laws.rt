//! What always holds of days. Each law is the contract of a function.

ghost use Rattle.std.specs.Prelude.{◌≡◌, pos};
ghost use Rattle.rules.specs.Bounds.{most_defaults, most_backing, farthest};
ghost use Rattle.rules.specs.Law.{RiskIsTheWorstOfDays};
ghost use Rattle.rules.specs.Lively.{Lively};
ghost use Rattle.rules.specs.SmallDay.{sunk_limit};
ghost use Rattle.rules.specs.Sound.{BackingAndRiskNotNegative};
ghost use Rattle.rules.specs.Words.{AllFarFromTheWord};

use crate::bounds::{farthest_sum, ledger_bounds, most_behind};

/// That a trader's risk is exactly what its worst possible day loses, after every run.
/// It answers how many clients such a day may name at most.
pub fn risk_is_the_worst_day() -> u32
    ensures worst { RiskIsTheWorstOfDays }
    ensures most { result ≡ most_defaults }
{
    ledger_bounds().defaults
}

/// That a trader's backing and risk are never below zero, so that its utilisation is a share of the one in the other.
/// It answers how much can stand behind a trader at most.
pub fn backing_and_risk_are_not_negative() -> i64
    ensures signs { BackingAndRiskNotNegative }
    ensures most { result ≡ pos most_backing }
{
    most_behind()
}

/// That the values of all trades stay far from the end of the word, so that no call is ever refused for it.
/// It answers what they can sum to at most, either way.
pub fn values_stay_far_from_the_word() -> i64
    ensures far { AllFarFromTheWord }
    ensures most { result ≡ pos farthest }
{
    farthest_sum()
}

/// The limit with which the small day ends on which a trader buys more than stands behind it: an intraday limit of 1,000 and 400 of its own, less a loss of 100 on each of 20 contracts.
pub fn small_day_limit() -> i64
    ensures { result ≡ sunk_limit }
{
    1_000 + 400 - 20 * 100
}

/// That the law of the day speaks of something: of limits that end below zero, of releases that lower a limit, of deposits that raise one.
/// It answers one limit below zero.
pub fn law_is_lively() -> i64
    ensures lively { Lively }
    ensures sunk { result ≡ sunk_limit }
{
    small_day_limit()
}
