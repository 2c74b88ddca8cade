//! The console's answers about sheets, each on a line of fixed room.

#![tactic(auto)]

ghost use Rattle.std.specs.Prelude.{◌≡◌, ℕ, [], MatchOption, Option, Some, None, Result};
ghost use Rattle.refusals.specs.Numbers.{refusal_of};
ghost use Rattle.inspection.specs.Causes.{sheet_cause};
ghost use Rattle.sheet_set.specs.Places.{Added};
ghost use Rattle.lines.specs.Lined.{written, followed};
ghost use Rattle.replies.specs.Texts.{refused_text};
ghost use Rattle.answers.specs.Texts.{sheet_text, no_place_text, added_text, shocks_text, heading_text, placed_text, contract_text};

use inspection::Kind;
use layout::fields::{contract_count, kind_of, scenario_count};
use lines::Line;
use refusals::Refusal;
use replies::day::Reply;
use replies::notes::Misplaced;
use scenario::ScenarioModel;
use sheet_set::sets::SheetSet;

// Puts the answer to a line that is refused on a line, in place of what stood there.
#[tactic(auto, using(crate::proofs::Fits::refused_whole))]
fn put_refused(line: &mut Line, refusal: Refusal)
    ensures { written line.new ≡ refused_text refusal }
{
    line.put(Reply::Refused(refusal));
}

/// The answer to a line that is refused: the refusal's number and its text.
pub fn refused_line(refusal: Refusal) -> Line
    ensures { written result ≡ refused_text refusal }
{
    let mut line = Line::new();
    put_refused(&mut line, refusal);
    line
}

// The answer to a file that was accepted: its place and its kind, how many contracts it has, and how many scenarios.
fn sheet_line(place: u8, file: &[u8]) -> Line
    requires passed { None ≡ sheet_cause file.now }
    ensures { written result ≡ sheet_text place file.now }
{
    let kind = Kind::try_from(kind_of(file)).unwrap();
    let scenarios = (" scenarios ", scenario_count(file));
    let counts = (" contracts ", (contract_count(file), scenarios));
    Line::of(("sheet ", (place, (" ", (kind.text(), counts)))))
}

// The answer to a file that finds no place.
#[tactic(auto, unfolding(lines::specs::Lined::followed))]
fn no_place_line() -> Line
    ensures { written result ≡ no_place_text }
{
    Line::of(Reply::Misplaced(Misplaced::SheetsFull))
}

/// Reads a file into the set of sheets, and tells what that came to: the place that it took, that it found none, or
/// why it was refused. The set has changed by what is told, and stays as it was unless the file took a place.
pub fn add_sheet(sheets: &mut SheetSet, file: &[u8]) -> Line
    ensures { (a : Result (Option ℕ) Refusal) × (refusal_of a ≡ sheet_cause file.now) × Added a file.now sheets.old sheets.new × (written result ≡ added_text a file.now) }
{
    match sheets.add(file) {
        Ok(Some(place)) => sheet_line(place, file),
        Ok(None) => no_place_line(),
        Err(refusal) => refused_line(refusal),
    }
}

// Puts what comes before the shocks of a contract on a line, in place of what stood there.
fn put_heading(line: &mut Line, contract: u8, place: u8, multiplier: u16)
    ensures { written line.new ≡ followed [] (heading_text contract place multiplier) }
{
    let place = (
        " subportfolio ",
        (place, (" multiplier ", (multiplier, " shocks"))),
    );
    line.put(("contract ", (contract, place)));
}

// Writes the shocks of a contract in the first `count` scenarios, each after a space.
fn add_shocks<M: ScenarioModel>(line: &mut Line, model: &M, contract: u8, count: u8)
    ensures { written line.new ≡ followed (written line.old) (shocks_text (M.ScenarioModel.table model.now) contract count) }
{
    for scenario in 0..count {
        line.push((" ", model.shock(contract, scenario)));
    }
}

// Puts the answer about a contract that lies in a subportfolio on a line, in place of what stood there.
fn put_placed<M: ScenarioModel>(
    line: &mut Line,
    model: &M,
    contract: u8,
    place: u8,
    multiplier: u16,
)
    ensures { written line.new ≡ placed_text (M.ScenarioModel.table model.now) contract (Some (place, multiplier)) }
{
    put_heading(line, contract, place, multiplier);
    add_shocks(line, model, contract, model.scenarios(place));
}

// The number of a contract with its subportfolio and its multiplier, `None` where the model does not know it.
fn placed<M: ScenarioModel>(model: &M, contract: u64) -> Option<(u8, u8, u16)>
    ensures { MatchOption result ((M.ScenarioModel.table model.now).place contract ≡ None) (λ p. (p.0 ≡ contract) × ((M.ScenarioModel.table model.now).place contract ≡ Some (p.1, p.2))) }
{
    let number = u8::try_from(contract).ok()?;
    let (place, multiplier) = model.place(number)?;
    Some((number, place, multiplier))
}

/// Puts the answer about a contract of a model on a line, in place of what stood there: its subportfolio, its
/// multiplier, and its shock in each scenario of the subportfolio; an unknown contract is refused.
pub fn put_contract<M: ScenarioModel>(line: &mut Line, model: &M, contract: u64)
    ensures { written line.new ≡ contract_text (M.ScenarioModel.table model.now) contract }
{
    match placed(model, contract) {
        Some((number, place, multiplier)) => put_placed(line, model, number, place, multiplier),
        None => put_refused(line, Refusal::Unknown),
    }
}

/// The answer about a contract of a model, on a line of its own: what `put_contract` puts on one that is lent.
pub fn contract_line<M: ScenarioModel>(model: &M, contract: u64) -> Line
    ensures { written result ≡ contract_text (M.ScenarioModel.table model.now) contract }
{
    let mut line = Line::new();
    put_contract(&mut line, model, contract);
    line
}
