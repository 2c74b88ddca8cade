//! The kinds of sheet.

ghost use Rattle.std.specs.Prelude.{◌≡◌, Some};
ghost use Rattle.layout.specs.Kinds.{Decodes, name_of};

use std::fmt;

/// The kinds of sheet.
#[derive(Clone, Copy, PartialEq, Eq, Debug)]
pub enum Kind {
    /// Exposures to factors, and the factors' shocks.
    Factors,
    /// A series of shocks for each contract.
    Series,
    /// Contracts that pay off at one strike each.
    Strikes,
}

/// A number that no kind of sheet has.
#[derive(Clone, Copy, PartialEq, Eq, Debug)]
pub struct UnknownKind(pub u16);

impl TryFrom<u16> for Kind {
    type Error = UnknownKind;

    ghost try_from_gives = { Decodes };

    fn try_from(number: u16) -> Result<Kind, UnknownKind> {
        match number {
            1 => Ok(Kind::Factors),
            2 => Ok(Kind::Series),
            3 => Ok(Kind::Strikes),
            _ => Err(UnknownKind(number)),
        }
    }
}

impl Kind {
    /// One word for people.
    pub fn text(self) -> &'static str
        ensures { result.now ≡ name_of self }
    {
        match self {
            Kind::Factors => "factors",
            Kind::Series => "series",
            Kind::Strikes => "strikes",
        }
    }
}

impl fmt::Display for Kind {
    ghost output = { λ x. Some (name_of x) };

    fn fmt<W: fmt::Write>(&self, f: &mut fmt::Formatter<W>) -> fmt::Result {
        f.write_str(self.text())
    }
}
