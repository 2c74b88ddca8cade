//! The console of a day: it reads lines from standard input, and answers each at once on standard output.

#![tactic(auto)]

mod asked;
mod replying;
mod screen;
mod sheet_lines;
mod terminal;

use desk::serving::serve;
use purses::purse::Purse;
use reading::line::InputLine;
use screen::Screen;
use sheet_lines::first_order;
use sheet_set::sets::SheetSet;
use std::io;
use terminal::Terminal;

// Serves the day of the sheets that were read, if an order begins one.
fn run(screen: &mut Screen) {
    let mut line = InputLine::new();
    let mut sheets = SheetSet::new();
    let Some(order) = first_order(screen, &mut line, &mut sheets) else {
        return;
    };
    let count = sheets.len();
    let mut terminal = Terminal::new(screen, &mut line, count, order);
    let (_session, brought) = serve(sheets.into_model(), Purse::new(), &mut terminal);
    match brought.close() {
        Ok(()) => {}
        Err(_purse) => unreachable!(),
    }
}

/// Reads sheets, and from the first order on serves the day over them. If a line was unreadable the program ends with status 1.
fn main(rt: HostRuntime) -> io::Result<()> {
    let mut screen = Screen::new(&rt);
    run(&mut screen);
    screen.finish()
}
