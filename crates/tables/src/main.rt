//! The worked tables of the field: it reads rows from standard input, works the figures that they ask for out through the
//! library, and prints each beside what it should be.

#![tactic(auto)]

mod examples;
mod greatest;
mod numbers;
mod questions;
mod steps;
mod workings;

use console::{next_word, only_word};
use examples::{Example, Untaken};
use numbers::all_signed;
use std::alloc::AllocError;
use std::{fs, io};
use workings::{Figure, figure_in};

/// What is wrong with a row.
#[derive(Drop)]
enum Fault {
    /// Its figure is not as expected.
    Different,
    /// It cannot be read, or its figure cannot be worked out.
    Faulty,
    /// There is no memory, or the input or the output fails.
    Broken(io::Error),
}

impl From<io::Error> for Fault {
    fn from(error: io::Error) -> Fault {
        Fault::Broken(error)
    }
}

impl From<AllocError> for Fault {
    fn from(error: AllocError) -> Fault {
        Fault::Broken(io::Error::from(error))
    }
}

impl From<Untaken> for Fault {
    fn from(error: Untaken) -> Fault {
        match error {
            Untaken::Refused => Fault::Faulty,
            Untaken::OutOfMemory => Fault::Broken(io::Error::from(io::ErrorKind::OutOfMemory)),
        }
    }
}

/// The program: what it runs on, and what it works figures out from.
#[derive(Drop)]
struct Tables<'a> {
    rt: &'a HostRuntime,
    example: Example,
}

impl Tables<'_> {
    // Prints a figure beside what it should be.
    fn compare(&self, question: &str, figure: Figure, expected: Figure) -> Result<(), Fault> {
        println!(self.rt; "{question}: worked out {figure}, should be {expected}")?;
        if figure == expected {
            Ok(())
        } else {
            Err(Fault::Different)
        }
    }

    // Answers a row that asks for a figure.
    fn answer(&self, question: &str, expected: &str) -> Result<(), Fault> {
        let (word, rest) = next_word(question).ok_or(Fault::Faulty)?;
        let numbers = all_signed(self.rt.alloc(), rest)?.ok_or(Fault::Faulty)?;
        let figure = self
            .example
            .figure(word, numbers.as_slice())
            .ok_or(Fault::Faulty)?;
        let expected = figure_in(expected).ok_or(Fault::Faulty)?;
        self.compare(question.trim(), figure, expected)
    }

    // Takes over the sheet at a path.
    fn read_sheet(&mut self, path: &str) -> Result<(), Fault> {
        let file = fs::read(self.rt, path).map_err(|_| Fault::Faulty)?;
        self.example
            .read(file.as_slice())
            .map_err(|_| Fault::Faulty)
    }

    // Takes over what a word says with the words that follow it.
    fn prepare(&mut self, word: &str, rest: &str) -> Result<(), Fault> {
        if word == "sheet"
            && let Some(path) = only_word(rest)
        {
            return self.read_sheet(path);
        }
        let numbers = all_signed(self.rt.alloc(), rest)?.ok_or(Fault::Faulty)?;
        Ok(self.example.take(word, numbers.as_slice())?)
    }

    // Answers a row. One that is blank, or that begins with `#`, is passed over.
    fn respond(&mut self, row: &str) -> Result<(), Fault> {
        let Some((word, rest)) = next_word(row) else {
            return Ok(());
        };
        if row.starts_with('#') {
            return Ok(());
        }
        if word == "table" {
            return Ok(self.rt.println(rest.trim())?);
        }
        match row.split_once('=') {
            Some((question, expected)) => self.answer(question, expected),
            None => self.prepare(word, rest),
        }
    }

    // Tells what is wrong with a row, unless its figures stand beside each other already or nothing can be told any more.
    fn report(&self, row: &str, fault: Fault) -> io::Result<()> {
        match fault {
            Fault::Different => Ok(()),
            Fault::Faulty => println!(self.rt; "cannot be worked out: {row}"),
            Fault::Broken(error) => Err(error),
        }
    }
}

/// Answers every row. Unless all is well with each, the program ends with status 1.
fn main(rt: HostRuntime) -> io::Result<()> {
    let rows = io::read_to_string(rt.alloc(), rt.stdin())?;
    let mut tables = Tables {
        rt: &rt,
        example: Example::new(rt.alloc()),
    };
    let mut outcome = Ok(());
    for row in rows.lines() {
        if let Err(fault) = tables.respond(row) {
            tables.report(row, fault)?;
            outcome = Err(io::Error::from(io::ErrorKind::InvalidData));
        }
    }
    outcome
}
