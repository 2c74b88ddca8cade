//! A day at a desk, from its preparation to its last slip.
ghost use Rattle.std.specs.Prelude.{◌≡◌, ℕ, List, [], ◌∷◌, ◌++◌};
ghost use Rattle.rules.specs.Ledger.{Slip, empty_ledger};
ghost use Rattle.rules.specs.Runs.{Event, fed};
ghost use Rattle.session.specs.Phases.{prepared, open_ledger};
ghost use Rattle.purses.specs.Held.{held, slips_in};
ghost use Rattle.desk.specs.Going.{Prepared, Trading, Traded};
ghost use Rattle.desk.specs.Outcomes.{outcome_told};
ghost use Rattle.desk.specs.Served.{given_back, Served};
ghost use Rattle.desk.specs.Told.{Step, told};

use crate::desks::Desk;
use crate::holdings::Holdings;
use crate::outcomes::Outcome;
use crate::preparing::prepare_one;
use crate::replies::Reply;
use crate::trading::trade_one;
use purses::purse::Purse;
use scenario::ScenarioModel;
use session::phases::{Preparation, Session};
use statements::statement::Statement;

// Carries out the orders of a preparation until one opens the session. False where the desk has no more before that.
fn prepare<M: ScenarioModel, D: Desk>(preparation: &mut Preparation<M>, desk: &mut D) -> bool
    requires { prepared preparation.old ≡ empty_ledger }
    ensures talk { (bs : List Slip) → Prepared D.past (M.ScenarioModel.table preparation.old.model) bs desk.old desk.new (prepared preparation.new) result }
    ensures model { preparation.new.model ≡ preparation.old.model }
{
    for _turn in 0..u64::MAX {
        let Some(order) = desk.next(preparation.model()) else {
            return false;
        };
        let Some(reply) = prepare_one(preparation, order) else {
            desk.tell(Reply::Accepted);
            return true;
        };
        desk.tell(reply);
    }
    false
}

// Tells a desk what became of an order.
fn answer<D: Desk>(desk: &mut D, outcome: Outcome, place: &Statement)
    ensures { (d : D) (h : List Step) → D.past d desk.old h → D.past d desk.new (h ++ told (outcome_told outcome place.now) ∷ []) }
{
    match outcome {
        Outcome::Replied(reply) => desk.tell(reply),
        Outcome::Stated(trader) => desk.state(trader, place),
    }
}

// Carries out the orders of a session until the desk has no more.
fn trade<M: ScenarioModel, D: Desk>(session: &mut Session<M>, holdings: &mut Holdings, desk: &mut D)
    requires { slips_in holdings.old.held ≡ (open_ledger session.old).slips }
    ensures talk { (first : D) (es : List Event) → Trading D.past (M.ScenarioModel.table session.old.model) (slips_in holdings.old.brought) first desk.old es (open_ledger session.old) 0 → Traded D.past (M.ScenarioModel.table session.old.model) (slips_in holdings.old.brought) first desk.new es (open_ledger session.new) }
    ensures model { session.new.model ≡ session.old.model }
    ensures held { slips_in holdings.new.held ≡ (open_ledger session.new).slips }
    ensures brought { held holdings.new.brought ≡ held holdings.old.brought }
{
    let mut place = Statement::new();
    for _turn in 0..u64::MAX {
        let Some(order) = desk.next(session.model()) else {
            return;
        };
        let outcome = trade_one(session, holdings, &mut place, order);
        answer(desk, outcome, &place);
    }
}

// Puts every slip back that is held, the first first.
fn give_back<M: ScenarioModel>(session: &mut Session<M>, held: &mut Purse)
    requires { slips_in held.old ≡ (open_ledger session.old).slips }
    ensures ledger { open_ledger session.new ≡ fed (M.ScenarioModel.table session.old.model) (open_ledger session.old) (given_back (open_ledger session.old).slips) }
    ensures model { session.new.model ≡ session.old.model }
    ensures none { slips_in held.new ≡ [] }
{
    while let Some(slip) = held.take(0) {
        match session.put_back(slip) {
            Ok(()) => {}
            Err((_refusal, _slip)) => unreachable!(),
        }
    }
}

/// Serves a day, from its preparation to its last slip: orders come one at a time, each is carried out and answered at once, until the desk has no more; then every slip that is still held is put back.
/// Slips of another session may be brought. None is spent here, and all are handed back. It asks for no memory.
pub fn serve<M: ScenarioModel, D: Desk>(
    model: M,
    brought: Purse,
    desk: &mut D,
) -> (Session<M>, Purse)
    ensures served { Served D.past (M.ScenarioModel.table model) (slips_in brought) desk.old desk.new (open_ledger result.0) }
    ensures model { result.0.model ≡ model }
    ensures brought { held result.1 ≡ held brought }
{
    let mut preparation = Preparation::new(model);
    let opened = prepare(&mut preparation, desk);
    let mut session = preparation.open();
    let mut holdings = Holdings {
        held: Purse::new(),
        brought,
    };
    if opened {
        trade(&mut session, &mut holdings, desk);
    }
    let Holdings { mut held, brought } = holdings;
    give_back(&mut session, &mut held);
    match held.close() {
        Ok(()) => (session, brought),
        Err(_purse) => unreachable!(),
    }
}
