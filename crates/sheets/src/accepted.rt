//! A file that no cause refuses, and a place in one of factors.

ghost use Rattle.std.specs.Prelude.{◌≡◌, ◌<◌, true};
ghost use Rattle.layout.specs.Fields.{kind, contracts, scenarios};
ghost use Rattle.layout.specs.Kinds.{kind_number};
ghost use Rattle.inspection.specs.Causes.{accepted};

use inspection::Kind;

/// A file that no cause refuses, and its kind.
#[derive(Clone, Copy)]
pub(crate) struct Accepted<'a> {
    pub(crate) file: &'a [u8],
    pub(crate) of: Kind,
    ghost passed: { accepted file.now ≡ true },
    ghost named: { kind_number of ≡ kind file.now },
}

/// A record and a scenario of an accepted file of factors.
#[derive(Clone, Copy)]
pub(crate) struct FactorCell<'a> {
    pub(crate) file: &'a [u8],
    pub(crate) j: u16,
    pub(crate) s: u16,
    ghost passed: { accepted file.now ≡ true },
    ghost factored: { kind file.now ≡ 1 },
    ghost known: { j < contracts file.now },
    ghost stated: { s < scenarios file.now },
}
