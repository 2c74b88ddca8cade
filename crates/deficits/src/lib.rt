//! What clients lack, and what those that lack most lack together. Money is in centavos.

#![tactic(auto)]

ghost use Rattle.std.specs.Prelude.{◌≡◌, ◌≤◌, true, false, length, take, IfSome, MatchOption, unsigned_abs};
ghost use Rattle.std.specs.Cmp.{partial_order_from_own_ties};
ghost use Rattle.std.specs.Cmp.Rules.{comparing};
ghost use Rattle.std.specs.Ordering.{as_partial_cmp};
ghost use Rattle.figures.specs.Sums.{total, total_greatest};
ghost use Rattle.keeper.specs.Kept.{left_out, Keeping};
ghost use Rattle.keeper.specs.Greatest.{Greatest, OnlyGreatest};
ghost use Rattle.deficits.specs.Ahead.{by_amount, ahead};
ghost use Rattle.figures.specs.Chosen.{GreatestSum, Moves, BoundsChoices, ReachedByChoice, MovesWithEntry};
ghost use Rattle.deficits.specs.Summed.{amounts, most_deficits, most_sum, fair, all_fair, summable, if_summable, picked_of};
ghost use Rattle.std.proofs.Common.{rules};

use keeper::{Ranked, keep_greatest};
use std::cmp::Ordering;

/// The most deficits in one list: one for each client.
pub const MOST_DEFICITS: usize = 128;

/// The largest amount of a deficit, in centavos: above every need, and 128 of them fit an i64.
pub const MOST_AMOUNT: i64 = 50_000_000_000_000_000;

/// What a client lacks.
#[derive(Clone, Copy, Debug, Default, PartialEq, Eq)]
pub struct Deficit {
    /// In centavos.
    pub amount: i64,
    /// The client's number.
    pub client: u8,
}

impl Deficit {
    /// Whether the amount is 0 to `MOST_AMOUNT`.
    fn is_fair(&self) -> bool
        ensures { result ≡ fair self.now.amount }
    {
        (0..=MOST_AMOUNT).contains(&self.amount)
    }
}

/// The larger amount is the greater, and of equal amounts the lower client.
// Kept by hand: a derive would put the higher client first.
impl Ord for Deficit {
    ghost cmp = { by_amount };

    ghost total = { Prim.search (comparing, rules) };

    ghost matches_partial_cmp = { Prim.search (comparing, rules) };

    ghost matches_eq = { Prim.search (comparing, rules) };

    fn cmp(&self, other: &Deficit) -> Ordering {
        self.amount
            .cmp(&other.amount)
            .then(other.client.cmp(&self.client))
    }
}

impl PartialOrd for Deficit {
    ghost partial_cmp = { as_partial_cmp by_amount };

    ghost laws = { partial_order_from_own_ties (Prim.search (comparing, rules)) (Prim.search (comparing, rules)) };

    fn partial_cmp(&self, other: &Deficit) -> Option<Ordering> {
        Some(self.cmp(other))
    }
}

/// The greater is ahead: the larger amount, and of equal amounts the lower client.
impl Ranked for Deficit {
    ghost before = { ahead };

    ghost ranks = { Prim.search rules };

    ghost apart = { Prim.search rules };

    fn outranks(&self, other: &Deficit) -> bool {
        self > other
    }
}

/// How many deficits were picked, and what they sum to.
#[derive(Clone, Copy, Debug, PartialEq, Eq)]
pub struct Picked {
    /// How many cells hold one.
    pub count: usize,
    /// In centavos.
    pub sum: i64,
}

/// Whether every amount is 0 to `MOST_AMOUNT`.
fn are_fair(deficits: &[Deficit]) -> bool
    ensures { result ≡ all_fair (amounts deficits.now) }
{
    deficits.iter().all(|deficit| deficit.is_fair())
}

/// The amounts together.
// Kept as a clause of each function that gives a sum, not as a fact of `Picked`: its fields are public, and it must ask no more of whoever builds one.
fn total_of(deficits: &[Deficit]) -> i64
    requires { summable deficits.now ≡ true }
    ensures value { result ≡ total (λ x. x) (amounts deficits.now) }
    ensures small { unsigned_abs result ≤ most_sum }
{
    deficits.iter().map(|deficit| deficit.amount).sum()
}

/// Fills `cells` with the greatest of `deficits`, greatest first and of equal amounts the lower client first, and answers how many cells are
/// filled and what these deficits sum to. The other cells keep what they hold.
/// `None`, with all cells as they are, where there are more than 128 deficits or an amount is not 0 to `MOST_AMOUNT`.
// Kept as a count beside lent cells: a keeper works in memory that its caller lends, and allocates none.
pub fn pick_greatest(deficits: &[Deficit], cells: &mut [Deficit]) -> Option<Picked>
    ensures value { result ≡ if_summable deficits.now (picked_of (length cells.old) deficits.now) }
    ensures held { MatchOption result (cells.new ≡ cells.old) (λ p. Keeping ahead cells.old deficits.now p.count cells.new) }
    ensures greatest { IfSome result (λ p. Greatest ahead deficits.now (take p.count cells.new) (left_out ahead (length cells.old) deficits.now)) }
    ensures only { IfSome result (λ p. OnlyGreatest ahead deficits.now (take p.count cells.new)) }
    ensures sum { IfSome result (λ p. GreatestSum (length cells.old) (amounts deficits.now) p.sum) }
    ensures small { IfSome result (λ p. unsigned_abs p.sum ≤ most_sum) }
{
    if deficits.len() > MOST_DEFICITS || !are_fair(deficits) {
        return None;
    }
    let count = keep_greatest(cells, deficits);
    Some(Picked {
        count,
        sum: total_of(&cells[..count]),
    })
}

/// The sum of the `n` greatest of `deficits`, or of all where there are fewer.
/// `None` where there are more than 128 deficits or an amount is not 0 to `MOST_AMOUNT`.
pub fn sum_of_greatest(deficits: &[Deficit], n: usize) -> Option<i64>
    ensures value { result ≡ if_summable deficits.now (total_greatest n (amounts deficits.now)) }
    ensures greatest { IfSome result (λ s. GreatestSum n (amounts deficits.now) s) }
    ensures moves { IfSome result (λ s. Moves n (amounts deficits.now) s) }
    ensures small { IfSome result (λ s. unsigned_abs s ≤ most_sum) }
{
    let mut cells = [Deficit::default(); MOST_DEFICITS];
    let picked = pick_greatest(deficits, &mut cells[..n.min(MOST_DEFICITS)]);
    picked.map(|picked| picked.sum)
}

/// The laws of the sum of the n greatest, for any amounts: it is at least the sum over any choice of at most n of them, where none is below 0;
/// a choice of at most n of them reaches it; and where one of them moves by d, it moves by 0 up to d the same way.
/// It answers how many deficits are summed at most.
pub fn greatest_sums_stand() -> usize
    ensures bounds { BoundsChoices }
    ensures reached { ReachedByChoice }
    ensures moves { MovesWithEntry }
    ensures most { result ≡ most_deficits }
{
    MOST_DEFICITS
}

#[cfg(test)]
mod tests {
    use super::*;
    use std::test::Fail;

    fn lacking(amount: i64, client: u8) -> Deficit {
        Deficit { amount, client }
    }

    #[test]
    fn the_two_greatest_are_summed(rt: HostRuntime) {
        let deficits = [
            lacking(100_000_000, 0),
            lacking(400_000_000, 1),
            lacking(250_000_000, 2),
        ];
        assert_eq!(rt; sum_of_greatest(&deficits, 2), Some(650_000_000));
        assert_eq!(rt; sum_of_greatest(&deficits, 200), Some(750_000_000));
        assert_eq!(rt; sum_of_greatest(&[lacking(-1, 0)], 1), None);
    }

    #[test]
    fn of_equal_ones_the_lower_client_goes_first(rt: HostRuntime) -> Result<(), Fail> {
        let mut cells = [lacking(0, 0); 2];
        let picked = pick_greatest(
            &[lacking(7, 9), lacking(8, 5), lacking(7, 3)],
            &mut cells,
        ).ok_or("refused")?;
        assert_eq!(rt; (picked.count, picked.sum), (2, 15));
        assert_eq!(rt; (cells[0].client, cells[1].client), (5, 3));
        Ok(())
    }
}
