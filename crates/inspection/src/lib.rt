//! Whether a file is accepted as a sheet, or the first cause for which it is refused.

#![tactic(auto)]

ghost use Rattle.std.specs.Prelude.{◌≡◌, IfOk};
ghost use Rattle.refusals.specs.Numbers.{refusal_of};
ghost use Rattle.layout.specs.Fields.{kind};
ghost use Rattle.layout.specs.Kinds.{kind_number};
ghost use Rattle.inspection.specs.Causes.{sheet_cause};

mod counts;
mod rows;

use layout::fields::kind_of;
pub use layout::kinds::Kind;
use refusals::Refusal;

/// The kind of an accepted file, or the first cause, in the order of the table, for which it is refused.
#[tactic(auto, unfolding(crate::specs::Causes::sheet_cause, crate::specs::Causes::wrong_kind))]
pub fn inspect(file: &[u8]) -> Result<Kind, Refusal>
    ensures answer { refusal_of result ≡ sheet_cause file.now }
    ensures named { IfOk result (λ k. kind_number k ≡ kind file.now) }
{
    // Kept a row of tests: each is a line of the table, in its order, and says its cause beside it.
    if counts::has_wrong_length(file) {
        return Err(Refusal::WrongLength);
    }
    if counts::has_wrong_kind(file) {
        return Err(Refusal::WrongKind);
    }
    if !counts::has_right_counts(file) {
        return Err(Refusal::WrongCount);
    }
    if counts::has_wrong_area(file) {
        return Err(Refusal::WrongArea);
    }
    if !rows::has_right_numbers(file) {
        return Err(Refusal::WrongNumber);
    }
    if !rows::has_right_fields(file) {
        return Err(Refusal::WrongField);
    }
    if !rows::starts_unmoved(file) {
        return Err(Refusal::MovedFirst);
    }
    Ok(Kind::try_from(kind_of(file)).unwrap())
}
