//! The orders that make a slip, or spend one.
ghost use Rattle.std.specs.Prelude.{◌≡◌, ◌<◌, ◌≤◌, ◌∷◌, ◌++◌, length, take, drop, slice_get};
ghost use Rattle.orders.specs.Meant.{holder_of};
ghost use Rattle.rules.specs.Causes.{withdraw as withdrawCall};
ghost use Rattle.session.specs.Phases.{open_ledger, slip_of, spent, Enters, ComesBack};
ghost use Rattle.purses.specs.Held.{held as all_in, slips_in};
ghost use Rattle.desk.specs.Meant.{makes, spends, strange, with_serial};
ghost use Rattle.desk.specs.Spending.{call_of, TakenOut, StrangeOut};
ghost use Rattle.desk.specs.Told.{told_of};
ghost use Rattle.desk.specs.Turns.{Turned};

use crate::holdings::Holdings;
use crate::replies::{Misplaced, Reply};
use orders::Holder;
use purses::purse::Purse;
use refusals::Refusal;
use scenario::ScenarioModel;
use session::phases::Session;
use session::slips::Slip;

/// How a slip is spent.
#[derive(Clone, Copy)]
pub(crate) enum Spending {
    Settle,
    PutBack,
}

/// Hands out a slip, which is held from then on.
pub(crate) fn withdraw<M: ScenarioModel>(
    session: &mut Session<M>,
    held: &mut Purse,
    holder: Holder,
    amount: i64,
) -> Reply
    requires { slips_in held.old ≡ (open_ledger session.old).slips }
    ensures turn { Turned (M.ScenarioModel.table session.old.model) (makes (withdrawCall (holder_of holder) amount)) (told_of result) (open_ledger session.old) (open_ledger session.new) }
    ensures model { session.new.model ≡ session.old.model }
    ensures held { slips_in held.new ≡ (open_ledger session.new).slips }
{
    let slip = match session.withdraw(holder, amount) {
        Ok(slip) => slip,
        Err(refusal) => return Reply::Refused(refusal),
    };
    let stub = slip.stub();
    match held.put(slip) {
        Ok(()) => Reply::Slip(stub),
        Err(_slip) => unreachable!(),
    }
}

// Spends a slip. Where none like it stands, it comes back.
fn spend<M: ScenarioModel>(
    session: &mut Session<M>,
    spending: Spending,
    slip: Slip,
) -> Result<(), (Refusal, Slip)>
    ensures entered { Enters M.ScenarioModel.table session.old (call_of spending (slip_of slip)) (spent result) session.new }
    ensures back { ComesBack result slip }
{
    match spending {
        Spending::Settle => session.settle(slip),
        Spending::PutBack => session.put_back(slip),
    }
}

// Takes the slip with a serial out of those that are held.
fn take_held(held: &mut Purse, serial: u64) -> Option<Slip>
    ensures { TakenOut (slips_in held.old) serial result (slips_in held.new) }
{
    let place = held.find(serial)?;
    held.take(place)
}

/// Spends the slip with a serial that is held, which stands.
pub(crate) fn spend_held<M: ScenarioModel>(
    session: &mut Session<M>,
    held: &mut Purse,
    spending: Spending,
    serial: u64,
) -> Reply
    requires { slips_in held.old ≡ (open_ledger session.old).slips }
    ensures turn { Turned (M.ScenarioModel.table session.old.model) (spends (call_of spending) (with_serial serial (open_ledger session.old).slips)) (told_of result) (open_ledger session.old) (open_ledger session.new) }
    ensures model { session.new.model ≡ session.old.model }
    ensures held { slips_in held.new ≡ (open_ledger session.new).slips }
{
    let Some(slip) = take_held(held, serial) else {
        return Reply::Misplaced(Misplaced::NoSlipHeld);
    };
    match spend(session, spending, slip) {
        Ok(()) => Reply::Accepted,
        Err((_refusal, _slip)) => unreachable!(),
    }
}

// Takes the slip at a place out of those that were brought, unless one that is held says the same.
fn take_strange(held: &Purse, brought: &mut Purse, place: usize) -> Option<Slip>
    ensures { StrangeOut (slips_in held.now) (all_in brought.old) place result (all_in brought.new) }
{
    let stub = brought.stub(place)?;
    if held.holds(stub) {
        return None;
    }
    brought.take(place)
}

// Puts a slip where it was taken out.
fn put_again(brought: &mut Purse, place: usize, slip: Slip)
    requires room { length (all_in brought.old) < 32 }
    requires within { place ≤ length (all_in brought.old) }
    ensures { all_in brought.new ≡ take place (all_in brought.old) ++ slip ∷ drop place (all_in brought.old) }
{
    match brought.insert(place, slip) {
        Ok(()) => {}
        Err(_slip) => unreachable!(),
    }
}

/// Tries to spend the slip at a place of those that were brought, unless one that is held says the same. None like it stands, so it comes back.
pub(crate) fn spend_brought<M: ScenarioModel>(
    session: &mut Session<M>,
    holdings: &mut Holdings,
    spending: Spending,
    place: usize,
) -> Reply
    requires { slips_in holdings.old.held ≡ (open_ledger session.old).slips }
    ensures turn { Turned (M.ScenarioModel.table session.old.model) (spends (call_of spending) (strange (open_ledger session.old).slips (slice_get (slips_in holdings.old.brought) place))) (told_of result) (open_ledger session.old) (open_ledger session.new) }
    ensures model { session.new.model ≡ session.old.model }
    ensures held { slips_in holdings.new.held ≡ (open_ledger session.new).slips }
    ensures brought { all_in holdings.new.brought ≡ all_in holdings.old.brought }
{
    let Some(slip) = take_strange(&holdings.held, &mut holdings.brought, place) else {
        return Reply::Misplaced(Misplaced::NoSlipHeld);
    };
    match spend(session, spending, slip) {
        Ok(()) => unreachable!(),
        Err((refusal, slip)) => {
            put_again(&mut holdings.brought, place, slip);
            Reply::Refused(refusal)
        }
    }
}
