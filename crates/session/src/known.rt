//! Whether a model knows a contract.
ghost use Rattle.std.specs.Prelude.{◌≡◌};
ghost use Rattle.entries.specs.Lots.{placed_in};

use scenario::ScenarioModel;

// Kept beside the like of it in the crate answers: that one gives the place too, this the number alone, and scenario, the crate below both,
// takes numbers that are narrow already.
// A contract's number where the model knows it.
pub(crate) fn placed<M: ScenarioModel>(model: &M, contract: u64) -> Option<u8>
    ensures { result ≡ placed_in (M.ScenarioModel.table model.now) contract }
{
    let number = u8::try_from(contract).ok()?;
    model.place(number)?;
    Some(number)
}
