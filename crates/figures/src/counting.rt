//! The two ways to count what positions lose.
ghost use Rattle.std.specs.Prelude.{◌≡◌, ℕ, ◌≤◌, ℤ, ◌+ℤ◌, neg_ℤ, unsigned_abs};
ghost use Rattle.std.proofs.Common.{lit≤};
ghost use Rattle.figures.specs.Losses.{lost_together, lost_alone};
ghost use Rattle.figures.specs.Sums.{floored};

/// How the loss of a position in a scenario is counted.
pub(crate) trait Counting {
    /// Of a mark, and of what is gained in the scenario.
    ghost lost: { ℤ → ℤ → ℤ };

    /// What is lost at most.
    ghost most: { ℕ };

    /// What counts as lost of a position with this mark that gains `moved`.
    fn lost(mark: i64, moved: i64) -> i64
        requires { (unsigned_abs mark ≤ 10000000000000) × (unsigned_abs moved ≤ 1000000000000) }
        ensures value { result ≡ lost mark moved }
        ensures small { unsigned_abs result ≤ most };

    ghost few: { most ≤ 11000000000000 };
}

/// Gains and losses together, and of the scenario alone.
pub(crate) struct Together;

impl Counting for Together {
    ghost lost = { lost_together };

    ghost most = { 1000000000000 };

    ghost few = { lit≤ tt };

    fn lost(_mark: i64, moved: i64) -> i64 {
        -moved
    }
}

/// The value of the losing positions alone, with no help from the gaining ones.
pub(crate) struct Alone;

impl Counting for Alone {
    ghost lost = { lost_alone };

    ghost most = { 11000000000000 };

    ghost few = { lit≤ tt };

    fn lost(mark: i64, moved: i64) -> i64 {
        (-(mark + moved)).max(0)
    }
}
