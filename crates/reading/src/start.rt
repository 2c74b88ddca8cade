//! The start of what a source gives.

ghost use Rattle.std.specs.Prelude.{◌≡◌, ◌≢◌, ◌+◌, ◌<◌, ◌≤◌, length, take, drop, IfOk, IfErr, OnErr};
ghost use Rattle.std.specs.Io.{ReadsAtMost};
ghost use Rattle.std.specs.Io.KnownBytes.{Keeps, Consumes, IsAtEnd};
ghost use Rattle.std.specs.IoError.{error_kind};

use std::io;
use std::io::{ErrorKind, Read};

// One read, tried again where a signal interrupts it.
pub(crate) fn read_once<R: Read>(source: &mut R, chunk: &mut [u8]) -> io::Result<usize>
    ensures bound { ReadsAtMost result chunk.new }
    ensures ok { IfOk result (λ n. Consumes (R.remaining source.old) (R.remaining source.new) (take n chunk.new)) }
    ensures end { IfOk result (λ n. n ≡ 0 → 0 < length chunk.old → IsAtEnd (R.remaining source.new)) }
    ensures err { OnErr result (Keeps (R.remaining source.old) (R.remaining source.new)) }
    ensures retried { IfErr result (λ e. error_kind e ≢ ErrorKind.Interrupted) }
{
    for _ in 0..u64::MAX {
        match source.read(chunk) {
            Err(error) if error.kind() == ErrorKind::Interrupted => {}
            outcome => return outcome,
        }
    }
    Err(io::Error::from(ErrorKind::Other))
}

// One read into the room from a place on.
fn read_from<R: Read>(source: &mut R, room: &mut [u8], at: usize) -> io::Result<usize>
    requires { at ≤ length room.old }
    ensures front { take at room.new ≡ take at room.old }
    ensures fits { IfOk result (λ n. at + n ≤ length room.new) }
    ensures ok { IfOk result (λ n. Consumes (R.remaining source.old) (R.remaining source.new) (take n (drop at room.new))) }
    ensures end { IfOk result (λ n. n ≡ 0 → at < length room.old → IsAtEnd (R.remaining source.new)) }
    ensures err { OnErr result (Keeps (R.remaining source.old) (R.remaining source.new)) }
    ensures retried { IfErr result (λ e. error_kind e ≢ ErrorKind.Interrupted) }
{
    read_once(source, &mut room[at..])
}

/// Reads until the room is full or the source ends, and tells how many bytes that were.
pub fn read_start<R: Read>(source: &mut R, room: &mut [u8]) -> io::Result<usize>
    ensures fits { IfOk result (λ n. n ≤ length room.new) }
    ensures bytes { IfOk result (λ n. Consumes (R.remaining source.old) (R.remaining source.new) (take n room.new)) }
    ensures end { IfOk result (λ n. n < length room.new → IsAtEnd (R.remaining source.new)) }
    ensures retried { IfErr result (λ e. error_kind e ≢ ErrorKind.Interrupted) }
{
    let mut used = 0;
    for _ in 0..u64::MAX {
        let count = read_from(source, room, used)?;
        if count == 0 {
            return Ok(used);
        }
        used += count;
    }
    Err(io::Error::from(ErrorKind::Other))
}
