//! An input whose bytes are read ahead.

ghost use Rattle.std.specs.Prelude.{◌≤◌};

pub mod filling;

/// How many bytes are read at once at most.
pub const CHUNK: usize = 4096;

/// An input. Its bytes are read a chunk at a time, each chunk only when a byte is wanted and none is at hand.
#[derive(Drop)]
pub struct Input<R> {
    pub(crate) source: R,
    pub(crate) chunk: [u8; CHUNK],
    // The bytes from `start` to `end` are at hand.
    pub(crate) start: usize,
    pub(crate) end: usize,
    ghost ordered: { start ≤ end },
    ghost within: { end ≤ 4096 },
}
