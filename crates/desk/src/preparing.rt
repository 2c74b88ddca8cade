//! The orders of a preparation.
ghost use Rattle.std.specs.Prelude.{◌≡◌, IfSome, IfNone};
ghost use Rattle.orders.specs.declared.Order.TheVariants.{Open};
ghost use Rattle.session.specs.Phases.{prepared};
ghost use Rattle.desk.specs.Meant.{prepares};
ghost use Rattle.desk.specs.Told.{told_of};
ghost use Rattle.desk.specs.Turns.{Turned};

use crate::replies::{Misplaced, Reply};
use orders::Order;
use scenario::ScenarioModel;
use session::phases::Preparation;

/// Carries out an order of a preparation. `None` of the order that opens the session, which moves the preparation.
pub(crate) fn prepare_one<M: ScenarioModel>(
    preparation: &mut Preparation<M>,
    order: Order,
) -> Option<Reply>
    ensures turn { IfSome result (λ r. Turned (M.ScenarioModel.table preparation.old.model) (prepares order) (told_of r) (prepared preparation.old) (prepared preparation.new)) }
    ensures opens { IfNone result ((order ≡ Open) × (prepared preparation.new ≡ prepared preparation.old)) }
    ensures model { preparation.new.model ≡ preparation.old.model }
{
    Some(match order {
        Order::Trader(intraday, defaults) => preparation
            .trader(intraday, defaults)
            .map_or_else(Reply::Refused, Reply::Trader),
        Order::Client(trader) => preparation
            .client(trader)
            .map_or_else(Reply::Refused, Reply::Client),
        Order::Carry(client, lot) => preparation
            .carry(client, lot)
            .map_or_else(Reply::Refused, Reply::Trade),
        Order::Price(contract, price) => preparation
            .price(contract, price)
            .map_or_else(Reply::Refused, |()| Reply::Accepted),
        Order::Deposit(holder, amount) => preparation
            .deposit(holder, amount)
            .map_or_else(Reply::Refused, |()| Reply::Accepted),
        Order::Open => return None,
        _ => Reply::Misplaced(Misplaced::NotOpen),
    })
}
