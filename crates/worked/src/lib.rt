//! Worked examples of the field, proved of the definitions.

#![tactic(auto)]

ghost use Rattle.std.specs.Prelude.{◌≡◌};
ghost use Rattle.worked.specs.Worked.{WorkedExamples};

/// How many worked examples the contract states.
pub const WORKED_EXAMPLES: u8 = 18;

/// That the definitions give the worked examples; it answers how many there are.
pub fn worked_examples() -> u8
    ensures examples { WorkedExamples }
    ensures count { result ≡ 18 }
{
    WORKED_EXAMPLES
}
