//! The slips that stand.
ghost use Rattle.std.specs.Prelude.{◌≡◌, ◌+◌, ◌*◌, ◌<◌, ◌≤◌, true, false, ◌++◌, map, length, take, drop, pos, if◌then◌else◌, MatchOption, unsigned_abs};
ghost use Rattle.cells.specs.Listed.{listed};
ghost use Rattle.orders.specs.Meant.{holder_of};
ghost use Rattle.rules.specs.Ledger.{same_holder, same_slip, struck, is_standing};
ghost use Rattle.rules.specs.Causes.{amounts_of};
ghost use Rattle.book.specs.Means.{slip_in};

use book::stubs::Stub;
use cells::rows::Rows;
use orders::Holder;

// What a slip says of a holder: its amount, or 0 where it is another's.
fn part_of(slip: Stub, holder: Holder) -> i64
    ensures value { result ≡ (if same_holder (holder_of holder) (slip_in slip).holder then (slip_in slip).amount else pos 0) }
    ensures small { unsigned_abs result ≤ 1000000000000000 }
{
    if holder == slip.holder {
        slip.amount.amount
    } else {
        0
    }
}

// What the slips of a holder say together.
pub(crate) fn standing(slips: &Rows<Stub, 32>, holder: Holder) -> i64
    ensures value { result ≡ amounts_of (map slip_in (listed slips.now)) (holder_of holder) }
    ensures small { unsigned_abs result ≤ 32 * 1000000000000000 }
{
    slips
        .as_slice()
        .iter()
        .map(|slip| part_of(*slip, holder))
        .sum()
}

// The place of the first slip that says the same.
pub(crate) fn find(slips: &Rows<Stub, 32>, stub: Stub) -> Option<usize>
    ensures { MatchOption result (is_standing (slip_in stub) (map slip_in (listed slips.now)) ≡ false) (λ k. (k < length (listed slips.now)) × (is_standing (slip_in stub) (map slip_in (listed slips.now)) ≡ true) × (struck (slip_in stub) (map slip_in (listed slips.now)) ≡ map slip_in (take k (listed slips.now) ++ drop (k + 1) (listed slips.now)))) }
{
    slips.as_slice().iter().position(
        |slip|
            ensures { result ≡ same_slip (slip_in stub) (slip_in slip.now) }
        { stub == *slip },
    )
}
