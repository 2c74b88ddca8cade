//! A purse's beginning and end, and the slips that come and go.
ghost use Rattle.std.specs.Prelude.{◌≡◌, ◌+◌, ◌<◌, ◌≤◌, [], ◌∷◌, ◌++◌, length, take, drop, Ok, Err, slice_get, MatchResult};
ghost use Rattle.purses.specs.Held.{held};

use crate::purse::Purse;
use crate::slots::{Slot, Slots};
use session::slips::Slip;
use std::mem;

impl Purse {
    /// A purse with no slip in it.
    pub fn new() -> Purse
        ensures { held result ≡ [] }
    {
        Purse {
            slots: Slots {
                at: [const { Slot::Empty }; 32],
            },
            count: 0,
        }
    }

    /// A slip more, behind the others. It comes back, with nothing changed, where 32 are in the purse.
    pub fn put(&mut self, slip: Slip) -> Result<(), Slip>
        ensures room { length (held self.old) < 32 → (result ≡ Ok tt) × (held self.new ≡ held self.old ++ slip ∷ []) }
        ensures full { 32 ≤ length (held self.old) → (result ≡ Err slip) × (held self.new ≡ held self.old) }
    {
        self.insert(self.len(), slip)
    }

    /// A slip more, at a place, before those from there on. It comes back, with nothing changed, where 32 are in the purse or the place is past the end.
    pub fn insert(&mut self, place: usize, slip: Slip) -> Result<(), Slip>
        ensures room { length (held self.old) < 32 → place ≤ length (held self.old) → (result ≡ Ok tt) × (held self.new ≡ take place (held self.old) ++ slip ∷ drop place (held self.old)) }
        ensures full { 32 ≤ length (held self.old) → (result ≡ Err slip) × (held self.new ≡ held self.old) }
        ensures past { length (held self.old) < place → (result ≡ Err slip) × (held self.new ≡ held self.old) }
    {
        if self.len() >= 32 || place > self.len() {
            return Err(slip);
        }
        self.slots.at[31] = Slot::Full(slip);
        self.slots.at[place..].rotate_right(1);
        self.count += 1;
        Ok(())
    }

    /// Takes out the slip at a place: those behind it move up. `None`, with nothing changed, past the last.
    pub fn take(&mut self, place: usize) -> Option<Slip>
        ensures value { result ≡ slice_get (held self.old) place }
        ensures after { held self.new ≡ take place (held self.old) ++ drop (place + 1) (held self.old) }
    {
        if place >= self.len() {
            return None;
        }
        let slot = mem::replace(&mut self.slots.at[place], Slot::Empty);
        self.slots.at[place..].rotate_left(1);
        self.count -= 1;
        slot.into_slip()
    }

    /// Ends a purse with no slip in it. Another comes back as it was.
    pub fn close(self) -> Result<(), Purse>
        ensures { MatchResult result (λ _. held self ≡ []) (λ purse. (purse ≡ self) × (0 < length (held self))) }
    {
        if !self.is_empty() {
            return Err(self);
        }
        let Purse { slots, count: _ } = self;
        slots.end();
        Ok(())
    }
}
