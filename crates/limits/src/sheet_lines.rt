//! The sheets that are read before the first order.
use crate::asked::{Entry, entry_of};
use crate::screen::Screen;
use answers::add_sheet;
use orders::Order;
use reading::line::InputLine;
use reading::start::read_start;
use replies::notes::Unreadable;
use sheet_set::sets::SheetSet;
use std::fs;

/// The most bytes read of a file: one more than a sheet may have, so that a longer one is known.
const MOST_READ: usize = 65_537;

// Reads the start of the file at a path, as much as there is room for.
fn read_file<'a>(rt: &HostRuntime, path: &str, room: &'a mut [u8]) -> Result<&'a [u8], Unreadable> {
    let mut file = fs::open(rt, path).map_err(|_| Unreadable::NoFile)?;
    let length = read_start(&mut file, room).map_err(|_| Unreadable::NoFile)?;
    Ok(&room[..length])
}

// Answers a line that names a file.
fn answer_sheet(screen: &mut Screen, sheets: &mut SheetSet, path: &str, room: &mut [u8]) {
    match read_file(screen.runtime(), path, room) {
        Ok(file) => screen.write(add_sheet(sheets, file)),
        Err(why) => screen.report(why),
    }
}

/// Reads sheets, and tells of them, until the first order comes, which is answered. `None` where none comes.
pub(crate) fn first_order(
    screen: &mut Screen,
    line: &mut InputLine,
    sheets: &mut SheetSet,
) -> Option<Order> {
    let mut room = [0; MOST_READ];
    for _ in 0..u64::MAX {
        let reached = screen.read(line)?;
        match entry_of(reached, line) {
            Entry::Nothing => {}
            Entry::Sheet(path) => answer_sheet(screen, sheets, path, &mut room),
            Entry::Contract(contract) => screen.show_contract(sheets.model(), contract),
            Entry::Order(order) => return Some(order),
            Entry::Unreadable(why) => screen.report(why),
        }
    }
    None
}
