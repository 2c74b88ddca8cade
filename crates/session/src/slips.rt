//! Slips.
ghost use Rattle.std.specs.Prelude.{◌≡◌};
ghost use Rattle.book.specs.Means.{slip_in};
ghost use Rattle.session.specs.Phases.{slip_of};

use book::stubs::Stub;

/// What an accepted withdrawal hands out. It is neither copied nor let go: it ends when it is settled or put back.
pub struct Slip {
    pub(crate) stub: Stub,
}

impl Slip {
    /// What the slip says.
    pub fn stub(&self) -> Stub
        ensures { slip_in result ≡ slip_of self.now }
    {
        self.stub
    }
}
