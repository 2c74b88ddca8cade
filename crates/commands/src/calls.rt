//! The orders that lines give, each by its first word and the words after it.

ghost use Rattle.std.specs.Prelude.{◌≡◌};
ghost use Rattle.commands.specs.Calls as called;
ghost use Rattle.commands.specs.Fields.{no_words};
ghost use Rattle.console.specs.Words.{words};

use crate::fields::{collateral, number_and_lot, one, two};
use console::{is_blank, next_word};
use orders::Order;

// The order, where no word follows its own.
fn alone(order: Order, rest: &str) -> Option<Order>
    ensures { result ≡ no_words order (words rest.now) }
{
    is_blank(rest).then_some(order)
}

// Kept a word and what follows it, here and in the three functions below: `next_word` gives the two, each function matches the one and reads
// the other, and a type of the two would be made only to be taken apart.
// The order of the preparation that begins with a word, by the words that follow it.
fn preparation(verb: &str, rest: &str) -> Option<Order>
    ensures { result ≡ called.preparation verb.now (words rest.now) }
{
    match verb {
        "trader" => {
            let (limit, defaults) = two(rest)?;
            Some(Order::Trader(limit, defaults))
        }
        "client" => Some(Order::Client(one(rest)?)),
        "carry" => {
            let (client, lot) = number_and_lot(rest)?;
            Some(Order::Carry(client, lot))
        }
        "price" => {
            let (contract, price) = two(rest)?;
            Some(Order::Price(contract, price))
        }
        "deposit" => {
            let (holder, amount) = collateral(rest)?;
            Some(Order::Deposit(holder, amount))
        }
        "open" => alone(Order::Open, rest),
        _ => None,
    }
}

// The order about trades, or for a statement, that begins with a word, by the words that follow it.
fn trading(verb: &str, rest: &str) -> Option<Order>
    ensures { result ≡ called.trading verb.now (words rest.now) }
{
    match verb {
        "trade" => {
            let (trader, lot) = number_and_lot(rest)?;
            Some(Order::Trade(trader, lot))
        }
        "specify" => {
            let (trade, client) = two(rest)?;
            Some(Order::Specify(trade, client))
        }
        "cancel" => Some(Order::Cancel(one(rest)?)),
        "statement" => Some(Order::Statement(one(rest)?)),
        _ => None,
    }
}

// The order about slips, amounts and the window that begins with a word, by the words that follow it.
fn settlement(verb: &str, rest: &str) -> Option<Order>
    ensures { result ≡ called.settlement verb.now (words rest.now) }
{
    match verb {
        "withdraw" => {
            let (holder, amount) = collateral(rest)?;
            Some(Order::Withdraw(holder, amount))
        }
        "settle" => Some(Order::Settle(one(rest)?)),
        "putback" => Some(Order::PutBack(one(rest)?)),
        "cash" => {
            let (client, amount) = two(rest)?;
            Some(Order::Cash(client, amount))
        }
        "window" => alone(Order::Window, rest),
        _ => None,
    }
}

/// The order of a line that begins with a word, by the words that follow it; `None` if the line gives none.
pub fn order_by(verb: &str, rest: &str) -> Option<Order>
    ensures { result ≡ called.order_by verb.now (words rest.now) }
{
    preparation(verb, rest)
        .or_else(|| trading(verb, rest))
        .or_else(|| settlement(verb, rest))
}

/// The order that a line gives; `None` if it gives none.
pub fn order_of(line: &str) -> Option<Order>
    ensures { result ≡ called.order_in (words line.now) }
{
    let (verb, rest) = next_word(line)?;
    order_by(verb, rest)
}
