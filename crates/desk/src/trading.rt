//! The orders of a session.
ghost use Rattle.std.specs.Prelude.{◌≡◌, Ok, Err};
ghost use Rattle.session.specs.Phases.{open_ledger};
ghost use Rattle.purses.specs.Held.{held, slips_in};
ghost use Rattle.desk.specs.declared.replies.Reply.TheVariants.{Accepted, Refused};
ghost use Rattle.desk.specs.Meant.{makes, trades};
ghost use Rattle.desk.specs.Outcomes.{outcome_told};
ghost use Rattle.desk.specs.Turns.{Turned};
ghost use Rattle.rules.specs.Causes.{statement as statementCall};
ghost use Rattle.statements.specs.Stated.{statement_in};

use crate::holdings::Holdings;
use crate::outcomes::Outcome;
use crate::replies::{Misplaced, Reply};
use crate::spending::{Spending, spend_brought, spend_held, withdraw};
use orders::Order;
use refusals::Refusal;
use scenario::ScenarioModel;
use session::phases::Session;
use statements::statement::Statement;

// What is told of a call that answers nothing but whether it is accepted.
fn done(answer: Result<(), Refusal>) -> Reply
    ensures { result ≡ (elim answer [ Ok x ↦ Accepted | Err e ↦ Refused e ]) }
{
    answer.map_or_else(Reply::Refused, |()| Reply::Accepted)
}

/// Works out the statement of a trader, in the place that is lent.
fn state<M: ScenarioModel>(session: &Session<M>, trader: u64, place: &mut Statement) -> Outcome
    ensures { Turned (M.ScenarioModel.table session.now.model) (makes (statementCall trader)) (outcome_told result place.new) (open_ledger session.now) (open_ledger session.now) }
{
    session.statement(trader, place).map_or_else(
        |refusal| Outcome::Replied(Reply::Refused(refusal)),
        |()| Outcome::Stated(trader),
    )
}

/// Carries out an order of a session. A statement is worked out in the place that is lent.
pub(crate) fn trade_one<M: ScenarioModel>(
    session: &mut Session<M>,
    holdings: &mut Holdings,
    place: &mut Statement,
    order: Order,
) -> Outcome
    requires { slips_in holdings.old.held ≡ (open_ledger session.old).slips }
    ensures turn { Turned (M.ScenarioModel.table session.old.model) (trades (slips_in holdings.old.brought) (open_ledger session.old) order) (outcome_told result place.new) (open_ledger session.old) (open_ledger session.new) }
    ensures model { session.new.model ≡ session.old.model }
    ensures held { slips_in holdings.new.held ≡ (open_ledger session.new).slips }
    ensures brought { held holdings.new.brought ≡ held holdings.old.brought }
{
    Outcome::Replied(match order {
        Order::Price(contract, price) => done(session.price(contract, price)),
        Order::Deposit(holder, amount) => done(session.deposit(holder, amount)),
        Order::Trade(trader, lot) => session
            .trade(trader, lot)
            .map_or_else(Reply::Refused, Reply::Trade),
        Order::Specify(trade, client) => done(session.specify(trade, client)),
        Order::Cancel(trade) => done(session.cancel(trade)),
        Order::Withdraw(holder, amount) => withdraw(session, &mut holdings.held, holder, amount),
        Order::Settle(serial) => spend_held(session, &mut holdings.held, Spending::Settle, serial),
        Order::PutBack(serial) => {
            spend_held(session, &mut holdings.held, Spending::PutBack, serial)
        }
        Order::Cash(client, amount) => done(session.cash(client, amount)),
        Order::Window => done(session.window()),
        Order::Statement(trader) => return state(session, trader, place),
        Order::SettleBrought(place) => spend_brought(session, holdings, Spending::Settle, place),
        Order::PutBackBrought(place) => spend_brought(session, holdings, Spending::PutBack, place),
        Order::Trader(..) | Order::Client(_) | Order::Carry(..) | Order::Open => {
            Reply::Misplaced(Misplaced::PreparationOver)
        }
    })
}
