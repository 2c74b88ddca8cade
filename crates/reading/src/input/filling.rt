//! The lines of an input.

ghost use Rattle.std.specs.Prelude.{◌≡◌, ◌≢◌, ◌≤◌, slice_range, IfErr, OnOk};
ghost use Rattle.std.specs.List.{position, before_first, after_first, list_any};
ghost use Rattle.std.specs.Io.KnownBytes.{Keeps, IsAtEnd};
ghost use Rattle.std.specs.IoError.{error_kind};
ghost use Rattle.reading.specs.Lines.{unread, is_feed, Grown, Tells};

use crate::input::{CHUNK, Input};
use crate::line::{InputLine, Reached};
use crate::start::read_once;
use std::io;
use std::io::{ErrorKind, Read};

// The place of the first line feed, `None` where there is none.
fn feed_in(bytes: &[u8]) -> Option<usize>
    ensures { result ≡ position is_feed bytes.now }
{
    bytes.iter().position(|byte| *byte == b'\n')
}

impl<R: Read> Input<R> {
    /// An input of which nothing is read yet.
    pub fn new(source: R) -> Input<R>
        ensures { unread R.remaining result ≡ R.remaining source }
    {
        Input {
            source,
            chunk: [0; CHUNK],
            start: 0,
            end: 0,
        }
    }

    // Reads a chunk, unless a byte is at hand.
    fn fill(&mut self) -> io::Result<()>
        ensures bytes { Keeps (unread R.remaining self.old) (unread R.remaining self.new) }
        ensures end { OnOk result (self.new.end ≤ self.new.start → IsAtEnd (unread R.remaining self.new)) }
        ensures retried { IfErr result (λ e. error_kind e ≢ ErrorKind.Interrupted) }
    {
        if self.start < self.end {
            return Ok(());
        }
        self.start = 0;
        self.end = 0;
        self.end = read_once(&mut self.source, &mut self.chunk)?;
        Ok(())
    }

    // Takes what is at hand up to a line feed, puts what stands before that on the line, and tells whether there was one.
    fn take_piece(&mut self, line: &mut InputLine) -> bool
        ensures source { self.new.source ≡ self.old.source }
        ensures rest { slice_range self.new.chunk self.new.start self.new.end ≡ after_first is_feed (slice_range self.old.chunk self.old.start self.old.end) }
        ensures line { Grown line.old line.new (before_first is_feed (slice_range self.old.chunk self.old.start self.old.end)) }
        ensures fed { result ≡ list_any is_feed (slice_range self.old.chunk self.old.start self.old.end) }
    {
        let bytes = &self.chunk[self.start..self.end];
        match feed_in(bytes) {
            Some(length) => {
                line.push_slice(&bytes[..length]);
                self.start += length + 1;
                true
            }
            None => {
                line.push_slice(bytes);
                self.start = self.end;
                false
            }
        }
    }

    /// Reads the next line, up to its line feed or the end of the input, and no byte more than is at hand then. Of a line that is too
    /// long the rest is passed over.
    pub fn next_line(&mut self, line: &mut InputLine) -> io::Result<Reached>
        ensures tells { Tells (unread R.remaining self.old) (unread R.remaining self.new) result line.new }
        ensures retried { IfErr result (λ e. error_kind e ≢ ErrorKind.Interrupted) }
    {
        line.clear();
        for _ in 0..u64::MAX {
            self.fill()?;
            if self.start >= self.end {
                return Ok(line.end_of_input());
            }
            if self.take_piece(line) {
                return Ok(line.end_by_feed());
            }
        }
        Err(io::Error::from(ErrorKind::Other))
    }
}
