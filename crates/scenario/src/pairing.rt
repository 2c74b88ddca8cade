ghost use Rattle.std.specs.Prelude.{◌≡◌, ◌+◌, nat_le};
ghost use Rattle.scenario.specs.Pairs.{most, moved, moved_shock, pair_table};
ghost use Rattle.scenario.specs.PairsLemmas.{pair_lawful};

use crate::{MOST_SUBPORTFOLIOS, ScenarioModel};

/// Two models as one: the second's subportfolios follow the first's. A contract known to both is the first's, there
/// are at most eight subportfolios, and a contract placed beyond is unknown.
#[derive(Drop)]
pub struct Pair<A, B> {
    pub first: A,
    pub second: B,
}

impl<A: ScenarioModel, B: ScenarioModel> ScenarioModel for Pair<A, B> {
    ghost table = { λ m. pair_table (A.ScenarioModel.table m.first) (B.ScenarioModel.table m.second) };

    ghost lawful = { λ m. pair_lawful _ _ (A.ScenarioModel.lawful m.first) (B.ScenarioModel.lawful m.second) };

    fn subportfolios(&self) -> u8 {
        MOST_SUBPORTFOLIOS.min(self.first.subportfolios() + self.second.subportfolios())
    }

    fn scenarios(&self, k: u8) -> u8 {
        if k >= MOST_SUBPORTFOLIOS {
            return 0;
        }
        let before = self.first.subportfolios();
        if k < before {
            self.first.scenarios(k)
        } else {
            self.second.scenarios(k - before)
        }
    }

    fn place(&self, contract: u8) -> Option<(u8, u16)> {
        let known = self.first.place(contract);
        known.or_else(|| self.moved_place(contract))
    }

    fn shock(&self, contract: u8, scenario: u8) -> i64 {
        if self.first.place(contract).is_some() {
            self.first.shock(contract, scenario)
        } else {
            self.moved_shock(contract, scenario)
        }
    }
}

impl<A: ScenarioModel, B: ScenarioModel> Pair<A, B> {
    /// Whether none of the second's subportfolios lies beyond.
    fn keeps_all(&self) -> bool
        ensures { result ≡ nat_le ((A.ScenarioModel.table self.now.first).subportfolios + (B.ScenarioModel.table self.now.second).subportfolios) most }
    {
        self.first.subportfolios() + self.second.subportfolios() <= MOST_SUBPORTFOLIOS
    }

    /// The second's place of a contract, moved past the first's subportfolios: `None` where that lies beyond.
    fn moved_place(&self, contract: u8) -> Option<(u8, u16)>
        ensures { result ≡ moved (A.ScenarioModel.table self.now.first).subportfolios ((B.ScenarioModel.table self.now.second).place contract) }
    {
        let (k, multiplier) = self.second.place(contract)?;
        let place = self.first.subportfolios() + k;
        (place < MOST_SUBPORTFOLIOS).then_some((place, multiplier))
    }

    /// The second's shock of a contract, 0 where its place lies beyond. Where the pair keeps all the second's
    /// subportfolios, the second's answer stands as it is, and its place is not asked.
    fn moved_shock(&self, contract: u8, scenario: u8) -> i64
        ensures { result ≡ moved_shock (A.ScenarioModel.table self.now.first).subportfolios ((B.ScenarioModel.table self.now.second).place contract) ((B.ScenarioModel.table self.now.second).shock contract scenario) }
    {
        if self.keeps_all() || self.moved_place(contract).is_some() {
            self.second.shock(contract, scenario)
        } else {
            0
        }
    }
}
