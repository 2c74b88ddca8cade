//! A line of text of fixed room, which asks for no memory. What it has no room for is left out.

#![tactic(auto)]

ghost use Rattle.std.specs.Prelude.{◌≡◌, ℕ, List, [], ◌∷◌, ◌++◌, decimal};
ghost use Rattle.std.specs.Fmt.{sign_text, signed_decimal};
ghost use Rattle.lines.specs.Lined.{written, followed};

use cells::rows::Rows;

/// How many bytes a line has room for.
pub const ROOM: usize = 4096;

/// A line of text.
#[derive(Drop)]
pub struct Line {
    bytes: Rows<u8, ROOM>,
}

impl Line {
    /// A line on which nothing is written.
    pub fn new() -> Line
        ensures { written result ≡ [] }
    {
        Line { bytes: Rows::new() }
    }

    /// A line on which a value is written.
    pub fn of<T: Shown>(value: T) -> Line
        ensures { written result ≡ followed [] (T.text value) }
    {
        let mut line = Line::new();
        line.push(value);
        line
    }

    /// What is written.
    pub fn as_bytes(&self) -> &[u8]
        ensures { result.now ≡ written self.now }
    {
        self.bytes.as_slice()
    }

    // Writes a byte more.
    #[tactic(auto, using(crate::proofs::Room::followed_byte))]
    fn push_byte(&mut self, byte: u8)
        ensures { written self.new ≡ followed (written self.old) (byte ∷ []) }
    {
        let _ = self.bytes.push(byte);
    }

    // Writes bytes.
    #[tactic(auto, using(crate::proofs::Room::followed_none, crate::proofs::Room::followed_more))]
    fn push_bytes(&mut self, bytes: &[u8])
        ensures { written self.new ≡ followed (written self.old) bytes.now }
    {
        for byte in bytes {
            self.push_byte(*byte);
        }
    }

    // Writes a number in decimal digits.
    // Kept `as`, here and below: a digit is below 10, so that nothing is cut off, and `try_from` would only add an `unwrap` to each.
    #[tactic(auto, using(crate::proofs::Decimals::one_digit, crate::proofs::Decimals::one_more))]
    fn push_digits(&mut self, number: u64)
        ensures { written self.new ≡ followed (written self.old) (decimal number) }
    {
        if number < 10 {
            self.push_byte(b'0' + number as u8);
        } else {
            self.push_digits(number / 10);
            self.push_byte(b'0' + (number % 10) as u8);
        }
    }

    // Writes a wide number in decimal digits.
    // A division of 128 bits is dear: once what is left of the number has 64, its digits are written by divisions of 64.
    #[tactic(auto, using(crate::proofs::Decimals::one_more))]
    fn push_wide(&mut self, number: u128)
        ensures { written self.new ≡ followed (written self.old) (decimal number) }
    {
        match u64::try_from(number) {
            Ok(small) => self.push_digits(small),
            Err(_) => {
                self.push_wide(number / 10);
                self.push_byte(b'0' + (number % 10) as u8);
            }
        }
    }

    // Writes a minus, if there is to be one.
    #[tactic(auto, using(crate::proofs::Room::followed_none))]
    fn push_sign(&mut self, negative: bool)
        ensures { written self.new ≡ followed (written self.old) (sign_text negative) }
    {
        if negative {
            self.push_byte(b'-');
        }
    }

    /// Writes what a value shows.
    pub fn push<T: Shown>(&mut self, value: T)
        ensures { written self.new ≡ followed (written self.old) (T.text value) }
    {
        value.show(self);
    }

    /// Writes what a value shows, in place of what stood there.
    pub fn put<T: Shown>(&mut self, value: T)
        ensures { written self.new ≡ followed [] (T.text value) }
    {
        self.bytes.clear();
        self.push(value);
    }
}

/// What can be written on a line.
// Kept beside `fmt::Display`, which was tried: that `write!` answers `Ok` stayed open, as its contract says what is written only where
// it does, and what is written here cannot fail.
pub trait Shown: Drop {
    /// The bytes that are written.
    ghost text: { Self → List ℕ };

    /// Writes them.
    fn show(self, line: &mut Line)
        ensures { written line.new ≡ followed (written line.old) (text self) };
}

/// A text, as it is.
impl Shown for &str {
    ghost text = { λ s. s.now };

    fn show(self, line: &mut Line) {
        line.push_bytes(self.as_bytes());
    }
}

/// A small number, in decimal digits.
impl Shown for u8 {
    ghost text = { decimal };

    fn show(self, line: &mut Line) {
        line.push(u16::from(self));
    }
}

/// A short number, in decimal digits.
impl Shown for u16 {
    ghost text = { decimal };

    fn show(self, line: &mut Line) {
        line.push(u64::from(self));
    }
}

/// A number, in decimal digits.
impl Shown for u64 {
    ghost text = { decimal };

    fn show(self, line: &mut Line) {
        line.push_digits(self);
    }
}

/// A wide number, in decimal digits.
impl Shown for u128 {
    ghost text = { decimal };

    fn show(self, line: &mut Line) {
        line.push_wide(self);
    }
}

/// A number in decimal digits, after a minus if it is below zero.
impl Shown for i64 {
    ghost text = { signed_decimal };

    #[tactic(auto, using(crate::proofs::Decimals::sign_first))]
    fn show(self, line: &mut Line) {
        line.push_sign(self < 0);
        line.push(self.unsigned_abs());
    }
}

/// One value, and then another.
impl<A: Shown, B: Shown> Shown for (A, B) {
    ghost text = { λ p. A.text p.0 ++ B.text p.1 };

    #[tactic(auto, using(crate::proofs::Room::then))]
    fn show(self, line: &mut Line) {
        let (first, second) = self;
        line.push(first);
        line.push(second);
    }
}
