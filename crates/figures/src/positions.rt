//! Positions that are few enough for every sum of their figures to fit.
ghost use Rattle.std.specs.Prelude.{◌≡◌, ◌<◌, ◌≤◌, length, MatchOption};
ghost use Rattle.cells.specs.Listed.{listed};

use crate::bounds::MOST_POSITIONS;
use crate::position::Position;
use cells::rows::Rows;

/// At most 1,024 positions.
#[derive(Clone, Copy)]
pub struct Positions<'a> {
    /// Each of them.
    pub all: &'a [Position],
    ghost few: { length all.now ≤ 1024 },
}

impl<'a> Positions<'a> {
    /// The given positions. `None` where there are more than 1,024.
    pub fn new(all: &'a [Position]) -> Option<Positions<'a>>
        ensures { MatchOption result (1024 < length all.now) (λ p. p.all.now ≡ all.now) }
    {
        if all.len() > MOST_POSITIONS {
            return None;
        }
        Some(Positions { all })
    }

    /// The positions of a table, which has no room for more.
    pub fn of(rows: &'a Rows<Position, 1024>) -> Positions<'a>
        ensures { result.all.now ≡ listed rows.now }
    {
        let all = rows.as_slice();
        Positions { all }
    }
}
