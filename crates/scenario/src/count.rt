ghost use Rattle.std.specs.Prelude.{◌≡◌, ◌≤◌};
ghost use Rattle.scenario.specs.Counts.{all_scenarios};

use crate::ScenarioModel;

/// How many scenarios a model has in all its subportfolios together: at least one, and at most 512.
pub fn scenario_count<M: ScenarioModel>(model: &M) -> u16
    ensures value { result ≡ all_scenarios (M.ScenarioModel.table model.now) }
    ensures some { 1 ≤ result }
    ensures few { result ≤ 512 }
{
    (0..model.subportfolios())
        .map(|k| u16::from(model.scenarios(k)))
        .sum()
}
