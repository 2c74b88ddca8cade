//! The desk of a day at the screen.
use crate::asked::{Entry, entry_of};
use crate::replying::{figures_shown, reply_shown, totals_shown};
use crate::screen::Screen;
use desk::desks::Desk;
use desk::replies::Reply;
use orders::Order;
use reading::line::InputLine;
use replies::day;
use replies::notes::Misplaced;
use replies::statement::StatementLine;
use scenario::ScenarioModel;
use statements::statement::Statement;

/// A desk whose orders are lines of the screen.
#[derive(Drop)]
pub(crate) struct Terminal<'a, 'b> {
    screen: &'a mut Screen<'b>,
    // The line that was read last.
    line: &'a mut InputLine,
    // How many sheets were read.
    sheets: usize,
    // The order with which the day begins.
    first: Option<Order>,
}

impl<'a, 'b> Terminal<'a, 'b> {
    /// The desk at a console on which so many sheets were read, and then an order.
    pub(crate) fn new(
        screen: &'a mut Screen<'b>,
        line: &'a mut InputLine,
        sheets: usize,
        first: Order,
    ) -> Terminal<'a, 'b> {
        Terminal {
            screen,
            line,
            sheets,
            first: Some(first),
        }
    }

    // Shows a line of a statement.
    fn show(&mut self, line: StatementLine) {
        self.screen.show(line);
    }
}

impl Desk for Terminal<'_, '_> {
    // What was said on a console is not told by the program's memory.
    ghost past = { λ first now steps. Unit {0} };

    fn next<M: ScenarioModel>(&mut self, model: &M) -> Option<Order> {
        if let Some(order) = self.first.take() {
            return Some(order);
        }
        for _ in 0..u64::MAX {
            let reached = self.screen.read(self.line)?;
            match entry_of(reached, self.line) {
                Entry::Nothing => {}
                Entry::Sheet(_) => self
                    .screen
                    .show(day::Reply::Misplaced(Misplaced::AfterFirstCall)),
                Entry::Contract(contract) => self.screen.show_contract(model, contract),
                Entry::Order(order) => return Some(order),
                Entry::Unreadable(why) => self.screen.report(why),
            }
        }
        None
    }

    fn tell(&mut self, reply: Reply) {
        self.screen.show(reply_shown(reply));
    }

    fn state(&mut self, trader: u64, statement: &Statement) {
        self.show(StatementLine::Trader(trader));
        for client in statement.clients.as_slice() {
            self.screen
                .show(StatementLine::Client(figures_shown(client, self.sheets)));
        }
        for line in totals_shown(statement) {
            self.show(line);
        }
    }
}
