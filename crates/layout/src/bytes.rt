//! Little-endian numbers in a slice of bytes. A byte past the end reads as 0, so that every place can be read.

#![tactic(auto, unfolding(crate::specs::Bytes::u16_at, crate::specs::Bytes::u32_at, crate::specs::Bytes::i32_at))]

ghost use Rattle.std.specs.Prelude.{◌≡◌, ℕ, ◌+◌, ◌<◌, slice_index};
ghost use Rattle.layout.specs.Bytes.{u16_at, u32_at, i32_at};

use std::array;

// The `N` bytes that start at `at`.
fn bytes_at<const N: usize>(file: &[u8], at: usize) -> [u8; N]
    ensures { (k : ℕ) → k < N → slice_index result k ≡ slice_index file.now (at + k) }
{
    let rest = file.get(at..).unwrap_or(&[]);
    array::from_fn(|k| rest.get(k).copied().unwrap_or(0))
}

/// The unsigned number of two bytes that starts at `at`.
pub(crate) fn u16_at(file: &[u8], at: usize) -> u16
    ensures { result ≡ u16_at file.now at }
{
    u16::from_le_bytes(bytes_at(file, at))
}

// Kept beside `u16_at`: `from_le_bytes` is a function of each number type, and of no trait of std.
/// The unsigned number of four bytes that starts at `at`.
pub(crate) fn u32_at(file: &[u8], at: usize) -> u32
    ensures { result ≡ u32_at file.now at }
{
    u32::from_le_bytes(bytes_at(file, at))
}

/// The signed number of four bytes that starts at `at`, in two's complement.
pub(crate) fn i32_at(file: &[u8], at: usize) -> i32
    ensures { result ≡ i32_at file.now at }
{
    u32_at(file, at).cast_signed()
}
