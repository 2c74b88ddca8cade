//! A line of input.

ghost use Rattle.std.specs.Prelude.{◌≡◌, ◌==◌, [], true, false, cond, length, MatchOption, IsUtf8};
ghost use Rattle.cells.specs.Listed.{listed};
ghost use Rattle.reading.specs.Lines.{shown, Grown};

use cells::rows::Rows;
use std::str;

/// How many bytes a line has room for.
pub const ROOM: usize = 4096;

/// What reading a line came to.
#[derive(Clone, Copy, PartialEq, Eq, Debug)]
pub enum Reached {
    /// The end of a line.
    Line,
    /// The end of a line that is longer than there is room for.
    TooLong,
    /// The end of the input, after its last line.
    End,
}

/// A line of input: its bytes, as far as there is room for them.
#[derive(Drop)]
pub struct InputLine {
    pub(crate) bytes: Rows<u8, ROOM>,
    // Whether there were more bytes than there is room for.
    pub(crate) over: bool,
    // Whether a line feed ended it, before which a carriage return is no part of the line.
    pub(crate) fed: bool,
}

impl InputLine {
    /// A line without a byte.
    pub fn new() -> InputLine
        ensures empty { listed result.bytes ≡ [] }
        ensures whole { result.over ≡ false }
        ensures running { result.fed ≡ false }
    {
        InputLine {
            bytes: Rows::new(),
            over: false,
            fed: false,
        }
    }

    // Begins the line anew, without a byte.
    pub(crate) fn clear(&mut self)
        ensures empty { listed self.new.bytes ≡ [] }
        ensures whole { self.new.over ≡ false }
        ensures running { self.new.fed ≡ false }
    {
        self.bytes.clear();
        self.over = false;
        self.fed = false;
    }

    // Puts bytes behind the others, as far as there is room.
    pub(crate) fn push_slice(&mut self, bytes: &[u8])
        ensures { Grown self.old self.new bytes.now }
    {
        let room = ROOM - self.bytes.len();
        self.bytes.extend_from_slice(bytes);
        if bytes.len() > room {
            self.over = true;
        }
    }

    // What is reached where the bytes of the line end.
    fn reached(&self) -> Reached
        ensures { result ≡ cond self.now.over Reached.TooLong Reached.Line }
    {
        if self.over {
            Reached::TooLong
        } else {
            Reached::Line
        }
    }

    // Ends the line at a line feed, and tells what is reached.
    pub(crate) fn end_by_feed(&mut self) -> Reached
        ensures reached { result ≡ cond self.old.over Reached.TooLong Reached.Line }
        ensures fed { self.new.fed ≡ true }
        ensures bytes { listed self.new.bytes ≡ listed self.old.bytes }
    {
        self.fed = true;
        self.reached()
    }

    // What is reached where the input ends.
    pub(crate) fn end_of_input(&self) -> Reached
        ensures { result ≡ cond (length (listed self.now.bytes) == 0) Reached.End (cond self.now.over Reached.TooLong Reached.Line) }
    {
        if self.bytes.len() == 0 {
            Reached::End
        } else {
            self.reached()
        }
    }

    /// The bytes of the line, without what ended it.
    pub fn as_bytes(&self) -> &[u8]
        ensures { result.now ≡ shown self.now }
    {
        let bytes = self.bytes.as_slice();
        if self.fed {
            bytes.strip_suffix(b"\r").unwrap_or(bytes)
        } else {
            bytes
        }
    }

    /// The line as text, `None` where its bytes are no UTF-8.
    pub fn text(&self) -> Option<&str>
        ensures { MatchOption result (¬ (IsUtf8 (shown self.now))) (λ s. s.now ≡ shown self.now) }
    {
        str::from_utf8(self.as_bytes()).ok()
    }
}
