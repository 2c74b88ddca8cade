//! Settlement amounts, the settlement window, and the needs at the opening.
ghost use Rattle.std.specs.Prelude.{◌≡◌, ◌<◌, map, get_or, pos};
ghost use Rattle.scenario.specs.Table.{ScenarioTable};
ghost use Rattle.orders.specs.Replied.{answered};
ghost use Rattle.rules.specs.Answers.{Answered, accepted};
ghost use Rattle.rules.specs.Causes.{cash as cashCall, window as windowCall, with_cash, opened};
ghost use Rattle.rules.specs.Ledger.{with_clients};
ghost use Rattle.book.specs.Ledgers.{ledger_in};
ghost use Rattle.book.specs.Means.{clients_in};

use book::books::Book;
use book::clients::Client;
use cells::rows::Rows;
use figures::cash::Cash;
use refusals::Refusal;

/// Sets a client's settlement amount.
pub fn set_cash(book: &mut Book, client: u64, amount: i64) -> Result<(), Refusal>
    ensures { (m : ScenarioTable) → Answered m (ledger_in book.old) (cashCall client amount) (answered (λ _. accepted) result) (ledger_in book.new) }
{
    let row = book
        .clients
        .get_mut(client as usize)
        .ok_or(Refusal::Unknown)?;
    let cash = Cash::new(amount).ok_or(Refusal::OutOfRange)?;
    if book.passed {
        return Err(Refusal::AfterWindow);
    }
    row.cash = cash;
    Ok(())
}

// Makes every settlement amount 0.
fn clear_cash(clients: &mut Rows<Client, 128>)
    ensures { clients_in clients.new ≡ map (with_cash (pos 0)) (clients_in clients.old) }
{
    for row in clients.as_mut_slice() {
        row.cash = Cash::none();
    }
}

/// The settlement window has passed: every settlement amount becomes 0.
pub fn pass_window(book: &mut Book) -> Result<(), Refusal>
    ensures { (m : ScenarioTable) → Answered m (ledger_in book.old) windowCall (answered (λ _. accepted) result) (ledger_in book.new) }
{
    if book.passed {
        return Err(Refusal::AfterWindow);
    }
    clear_cash(&mut book.clients);
    book.passed = true;
    Ok(())
}

// Writes the opening need of every client.
fn set_needs(clients: &mut Rows<Client, 128>, needs: &[i64; 128])
    ensures { clients_in clients.new ≡ opened (λ c. get_or needs.now c (pos 0)) 0 (clients_in clients.old) }
{
    // Kept by place: `iter_mut().zip(needs)` was tried, and what such a loop leaves in the rows stayed open.
    for (place, row) in clients.as_mut_slice().iter_mut().enumerate() {
        row.opening_need = needs[place];
    }
}

/// Enters each client's opening need: `needs` has them by the clients' numbers.
pub fn enter_needs(book: &mut Book, needs: &[i64; 128])
    ensures { ledger_in book.new ≡ with_clients (ledger_in book.old) (opened (λ c. get_or needs.now c (pos 0)) 0 (ledger_in book.old).clients) (ledger_in book.old).passed }
{
    set_needs(&mut book.clients, needs);
}
