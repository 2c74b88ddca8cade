//! The places of a purse.
ghost use Rattle.std.specs.Prelude.{◌≡◌, ℕ, ◌<◌, option_map, slice_index_or};
ghost use Rattle.book.specs.Means.{slip_in};
ghost use Rattle.session.specs.Phases.{slip_of};
ghost use Rattle.purses.specs.declared.slots.Slot.TheVariants.{Empty};
ghost use Rattle.purses.specs.Slots.{slip_at, has_serial, says};

use book::stubs::Stub;
use session::slips::Slip;

// A place, with a slip or without. Only a place without one may be let go.
pub(crate) enum Slot {
    Empty,
    Full(Slip),
}

impl Slot {
    // The slip that is there.
    pub(crate) fn into_slip(self) -> Option<Slip>
        ensures { result ≡ slip_at self }
    {
        match self {
            Slot::Empty => None,
            Slot::Full(slip) => Some(slip),
        }
    }

    // What the slip that is there says.
    pub(crate) fn stub(&self) -> Option<Stub>
        ensures { option_map slip_in result ≡ option_map slip_of (slip_at self.now) }
    {
        match self {
            Slot::Empty => None,
            Slot::Full(slip) => Some(slip.stub()),
        }
    }

    // Whether a slip with a serial is there.
    pub(crate) fn has_serial(&self, serial: u64) -> bool
        ensures { result ≡ has_serial serial self.now }
    {
        self.stub()
            .is_some_and(|stub| u64::from(stub.serial) == serial)
    }

    // Whether a slip that says the same is there.
    pub(crate) fn says(&self, stub: Stub) -> bool
        ensures { result ≡ says (slip_in stub) self.now }
    {
        self.stub() == Some(stub)
    }
}

impl Drop for Slot {
    fn drop(self)
        requires { self ≡ Empty }
    {
        match self {
            Slot::Empty => {}
            Slot::Full(_slip) => unreachable!(),
        }
    }
}

// The 32 places.
// Kept in a struct of their own: with the row itself as a field of the purse, beside the facts about it, `take` was tried, and the
// checker could not build its part of the proof.
pub(crate) struct Slots {
    pub(crate) at: [Slot; 32],
}

impl Slots {
    // Ends places that are all without a slip.
    // Kept by 32 names: a loop over the row by value and `map` were tried, and neither is proved where letting go of an element asks
    // for something; the row as a whole is not let go either.
    pub(crate) fn end(self)
        requires { (k : ℕ) → k < 32 → slice_index_or self.at k Empty ≡ Empty }
    {
        let Slots { at } = self;
        let [
            _s0,
            _s1,
            _s2,
            _s3,
            _s4,
            _s5,
            _s6,
            _s7,
            _s8,
            _s9,
            _s10,
            _s11,
            _s12,
            _s13,
            _s14,
            _s15,
            _s16,
            _s17,
            _s18,
            _s19,
            _s20,
            _s21,
            _s22,
            _s23,
            _s24,
            _s25,
            _s26,
            _s27,
            _s28,
            _s29,
            _s30,
            _s31,
        ] = at;
    }
}
