#![tactic(auto)]

ghost use Rattle.std.specs.Prelude.{◌≡◌};
ghost use Rattle.scenario.specs.Table.{ScenarioTable, Lawful};

mod count;
mod pairing;

pub use count::scenario_count;
pub use pairing::Pair;

/// The most subportfolios that a scenario model has.
pub const MOST_SUBPORTFOLIOS: u8 = 8;

/// A scenario model means a table: subportfolios with their scenarios, and the contracts that lie in them with a
/// shock in each scenario. Every question takes every argument, changes nothing, and is answered from the table.
pub trait ScenarioModel {
    ghost table: { Self → ScenarioTable };

    /// How many subportfolios there are: 1 to 8, numbered from 0.
    fn subportfolios(&self) -> u8
        ensures { result ≡ (table self.now).subportfolios };

    /// How many scenarios subportfolio `k` has: 1 to 64, and 0 beyond the last subportfolio.
    fn scenarios(&self, k: u8) -> u8
        ensures { result ≡ (table self.now).scenarios k };

    /// The contract's subportfolio, and its multiplier in centavos per price tick; `None` for an unknown contract.
    fn place(&self, contract: u8) -> Option<(u8, u16)>
        ensures { result ≡ (table self.now).place contract };

    /// The gain of one bought contract in a scenario of its subportfolio, in centavos;
    /// 0 for an unknown contract or a missing scenario.
    // Kept as two numbers: no value holds a contract and a scenario together, so a type of the two would only be made for the question.
    fn shock(&self, contract: u8, scenario: u8) -> i64
        ensures { result ≡ (table self.now).shock contract scenario };

    ghost lawful: { (m : Self) → Lawful (table m) };
}
