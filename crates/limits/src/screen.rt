//! Lines in and answers out.
use answers::put_contract;
use lines::{Line, Shown};
use reading::input::Input;
use reading::line::{InputLine, Reached};
use replies::day::Reply;
use replies::notes::Unreadable;
use scenario::ScenarioModel;
use std::io;
use std::io::{ErrorKind, Print, Stdin};

/// Where lines come from and answers go.
#[derive(Drop)]
pub(crate) struct Screen<'a> {
    rt: &'a HostRuntime,
    input: Input<Stdin>,
    // The answer that was written last.
    answer: Line,
    // Whether the input or the output failed: then no line is read or written any more.
    outcome: io::Result<()>,
    // Whether a line was unreadable.
    unreadable: bool,
}

impl<'a> Screen<'a> {
    /// Standard input and output.
    pub(crate) fn new(rt: &'a HostRuntime) -> Screen<'a> {
        Screen {
            rt,
            input: Input::new(rt.stdin()),
            answer: Line::new(),
            outcome: Ok(()),
            unreadable: false,
        }
    }

    /// What the program runs on.
    pub(crate) fn runtime(&self) -> &'a HostRuntime {
        self.rt
    }

    /// Reads the next line. `None` where the input has ended, or where it or the output failed.
    pub(crate) fn read(&mut self, line: &mut InputLine) -> Option<Reached> {
        if self.outcome.is_err() {
            return None;
        }
        match self.input.next_line(line) {
            Ok(Reached::End) => None,
            Ok(reached) => Some(reached),
            Err(error) => {
                self.outcome = Err(error);
                None
            }
        }
    }

    // Writes the answer, at once.
    fn send(&mut self) {
        if self.outcome.is_ok() {
            self.answer.push("\n");
            self.outcome = self.rt.write_all(self.answer.as_bytes());
        }
    }

    /// Writes a line.
    pub(crate) fn write(&mut self, line: Line) {
        self.answer = line;
        self.send();
    }

    /// Writes a line of what a value shows.
    pub(crate) fn show<T: Shown>(&mut self, value: T) {
        self.answer.put(value);
        self.send();
    }

    /// Writes the answer about a contract of a model.
    pub(crate) fn show_contract<M: ScenarioModel>(&mut self, model: &M, contract: u64) {
        put_contract(&mut self.answer, model, contract);
        self.send();
    }

    /// Answers a line that cannot be read, or whose file cannot.
    pub(crate) fn report(&mut self, why: Unreadable) {
        self.unreadable = true;
        self.show(Reply::Unreadable(why));
    }

    /// How it went: an error if the input or the output failed, or if a line was unreadable.
    pub(crate) fn finish(self) -> io::Result<()> {
        self.outcome?;
        if self.unreadable {
            return Err(io::Error::from(ErrorKind::InvalidInput));
        }
        Ok(())
    }
}
