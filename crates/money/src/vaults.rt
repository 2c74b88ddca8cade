//! Deposits, and what is handed out against slips.
ghost use Rattle.std.specs.Prelude.{◌≡◌, true, ◌+ℤ◌, Ok, Err, IsSomeAnd};
ghost use Rattle.scenario.specs.Table.{ScenarioTable};
ghost use Rattle.orders.specs.Meant.{holder_of};
ghost use Rattle.orders.specs.Replied.{answered};
ghost use Rattle.refusals.specs.Numbers.{refusal_of};
ghost use Rattle.rules.specs.Answers.{Answered, accepted};
ghost use Rattle.rules.specs.Causes.{deposit as depositCall, settle as settleCall, put_back as putBackCall};
ghost use Rattle.rules.specs.Ledger.{collateral_of, is_standing};
ghost use Rattle.book.specs.Ledgers.{ledger_in};
ghost use Rattle.book.specs.Means.{slip_in};
ghost use Rattle.money.specs.Paid.{pay_cause, Parts, PaidOut};

use crate::accounts::{collateral, fair_amount, set_collateral};
use crate::slips::{find, standing};
use book::books::Book;
use book::funds::Fund;
use book::stubs::Stub;
use orders::Holder;
use refusals::Refusal;
use rules::bounds::{MOST_AMOUNT, MOST_SLIPS, MOST_STANDING};

// Kept a holder and an amount, here and in the two functions below: a call gives the two as they were ordered, and a type of the two would be made only to be taken apart.
/// Adds to the collateral of a holder.
pub fn deposit(book: &mut Book, holder: Holder, amount: i64) -> Result<(), Refusal>
    ensures { (m : ScenarioTable) → Answered m (ledger_in book.old) (depositCall (holder_of holder) amount) (answered (λ _. accepted) result) (ledger_in book.new) }
{
    let held = collateral(book, holder).ok_or(Refusal::Unknown)?;
    let more = fair_amount(amount).ok_or(Refusal::OutOfRange)?;
    let fund = held.checked_add(more).ok_or(Refusal::TooMuchCollateral)?;
    if fund.amount + standing(&book.slips, holder) > MOST_AMOUNT {
        return Err(Refusal::TooMuchCollateral);
    }
    set_collateral(&mut book.traders, &mut book.clients, holder, fund);
    Ok(())
}

// The two parts of a holder's collateral when an amount is handed out.
#[derive(Clone, Copy)]
struct Parting {
    left: Fund,
    paid: Fund,
}

// What is left to a holder and what is handed out, or why nothing is.
fn parts(book: &Book, holder: Holder, amount: i64) -> Result<Parting, Refusal>
    ensures caused { refusal_of result ≡ pay_cause (ledger_in book.now) (holder_of holder) amount }
    ensures made { Parts (ledger_in book.now) (holder_of holder) amount result }
{
    let held = collateral(book, holder).ok_or(Refusal::Unknown)?;
    if book.slips.len() >= MOST_STANDING || book.made >= MOST_SLIPS {
        return Err(Refusal::TableFull);
    }
    let paid = fair_amount(amount).ok_or(Refusal::OutOfRange)?;
    let left = held.checked_sub(paid).ok_or(Refusal::NotCovered)?;
    Ok(Parting { left, paid })
}

/// Hands out collateral of a holder against a slip, whatever that leaves of a need or a limit.
pub fn pay_out(book: &mut Book, holder: Holder, amount: i64) -> Result<Stub, Refusal>
    ensures { PaidOut (ledger_in book.old) (holder_of holder) amount result (ledger_in book.new) }
{
    let parting = parts(book, holder, amount)?;
    let serial = book.made + 1;
    let stub = Stub {
        serial,
        holder,
        amount: parting.paid,
    };
    set_collateral(&mut book.traders, &mut book.clients, holder, parting.left);
    book.slips.push(stub).or(Err(Refusal::TableFull))?;
    book.made = serial;
    Ok(stub)
}

/// Strikes the standing slip that says the same.
pub fn settle(book: &mut Book, stub: Stub) -> Result<(), Refusal>
    ensures { (m : ScenarioTable) → Answered m (ledger_in book.old) (settleCall (slip_in stub)) (answered (λ _. accepted) result) (ledger_in book.new) }
{
    let found = find(&book.slips, stub).ok_or(Refusal::NoSuchSlip)?;
    book.slips.remove(found);
    Ok(())
}

// What a holder has when the amount of a standing slip is given back to it: there is room for it.
fn restored(book: &Book, stub: Stub) -> Option<Fund>
    requires { is_standing (slip_in stub) (ledger_in book.now).slips ≡ true }
    ensures { IsSomeAnd result (λ x. x.amount ≡ collateral_of (ledger_in book.now) (holder_of stub.holder) +ℤ stub.amount.amount) }
{
    collateral(book, stub.holder)
        .unwrap_or_default()
        .checked_add(stub.amount)
}

/// Strikes the standing slip that says the same, and gives its amount back to its holder.
pub fn put_back(book: &mut Book, stub: Stub) -> Result<(), Refusal>
    ensures { (m : ScenarioTable) → Answered m (ledger_in book.old) (putBackCall (slip_in stub)) (answered (λ _. accepted) result) (ledger_in book.new) }
{
    let place = find(&book.slips, stub).ok_or(Refusal::NoSuchSlip)?;
    let fund = restored(book, stub).ok_or(Refusal::NoSuchSlip)?;
    set_collateral(&mut book.traders, &mut book.clients, stub.holder, fund);
    book.slips.remove(place);
    Ok(())
}
