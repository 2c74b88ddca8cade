//! What is read of a purse.
ghost use Rattle.std.specs.Prelude.{◌≡◌, ◌≤◌, ◌==◌, length, option_map, slice_get, MatchOption};
ghost use Rattle.rules.specs.Ledger.{is_standing};
ghost use Rattle.book.specs.Means.{slip_in};
ghost use Rattle.purses.specs.Held.{held, slips_in, Others, FirstOf};

use crate::purse::Purse;
use book::stubs::Stub;

impl Purse {
    /// How many slips are in it.
    pub fn len(&self) -> usize
        ensures value { result ≡ length (held self.now) }
        ensures few { result ≤ 32 }
    {
        self.count
    }

    /// Whether no slip is in it.
    pub fn is_empty(&self) -> bool
        ensures { result ≡ (length (held self.now) == 0) }
    {
        self.len() == 0
    }

    /// What the slip at a place says. `None` past the last.
    pub fn stub(&self, place: usize) -> Option<Stub>
        ensures { option_map slip_in result ≡ slice_get (slips_in self.now) place }
    {
        self.slots.at.get(place)?.stub()
    }

    /// The place of the first slip with a serial. `None` where each has another.
    pub fn find(&self, serial: u64) -> Option<usize>
        ensures { MatchOption result (Others (slips_in self.now) (length (slips_in self.now)) serial) (FirstOf (slips_in self.now) serial) }
    {
        self.slots
            .at
            .iter()
            .position(|slot| slot.has_serial(serial))
    }

    /// Whether a slip in it says the same.
    pub fn holds(&self, stub: Stub) -> bool
        ensures { result ≡ is_standing (slip_in stub) (slips_in self.now) }
    {
        self.slots.at.iter().any(|slot| slot.says(stub))
    }
}
