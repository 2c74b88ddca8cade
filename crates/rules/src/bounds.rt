//! How many and how large the things of a ledger may be. Money is in centavos. Bounds of a single position are those of `figures`.

ghost use Rattle.std.specs.Prelude.{◌≡◌, pos};
ghost use Rattle.rules.specs.Bounds.{most_traders, most_clients, most_trades, most_standing, most_slips, most_defaults, most_amount, most_backing, farthest};

/// The most traders of a day.
pub const MOST_TRADERS: usize = 16;

/// The most clients of a day, of all traders together.
pub const MOST_CLIENTS: usize = 128;

/// The most trades of a day, carried positions counted in.
pub const MOST_TRADES: usize = 1_024;

/// The most slips that stand at one time.
pub const MOST_STANDING: usize = 32;

/// The most slips that are made in a day.
pub const MOST_SLIPS: u32 = 1_000_000_000;

/// The most clients of a trader that a bad day may name.
pub const MOST_DEFAULTS: u32 = 128;

/// The highest intraday limit, the largest deposit or withdrawal, and the most collateral of a holder, its standing slips counted in.
pub const MOST_AMOUNT: i64 = 1_000_000_000_000_000;

/// The most that one trade's value can be in any scenario, either way.
pub const FARTHEST_VALUE: i64 = 11_000_000_000_000;

/// The bounds of a ledger in one value.
#[derive(Clone, Copy, Debug, PartialEq, Eq)]
pub struct Bounds {
    /// How many traders there may be.
    pub traders: usize,
    /// How many clients, of all traders together.
    pub clients: usize,
    /// How many trades, carried positions counted in.
    pub trades: usize,
    /// How many slips may stand at one time.
    pub standing: usize,
    /// How many slips may be made in a day.
    pub slips: u32,
    /// How many clients of a trader a bad day may name.
    pub defaults: u32,
    /// How large an intraday limit, a deposit, a withdrawal or the collateral of a holder may be.
    pub amount: i64,
}

/// The bounds that the rules have.
pub fn ledger_bounds() -> Bounds
    ensures traders { result.traders ≡ most_traders }
    ensures clients { result.clients ≡ most_clients }
    ensures trades { result.trades ≡ most_trades }
    ensures standing { result.standing ≡ most_standing }
    ensures slips { result.slips ≡ most_slips }
    ensures defaults { result.defaults ≡ most_defaults }
    ensures amount { result.amount ≡ pos most_amount }
{
    Bounds {
        traders: MOST_TRADERS,
        clients: MOST_CLIENTS,
        trades: MOST_TRADES,
        standing: MOST_STANDING,
        slips: MOST_SLIPS,
        defaults: MOST_DEFAULTS,
        amount: MOST_AMOUNT,
    }
}

/// The most that can stand behind a trader: its intraday limit, its own collateral, and the member's in its favour.
pub fn most_behind() -> i64
    ensures { result ≡ pos most_backing }
{
    3 * MOST_AMOUNT
}

/// The most that the values of all trades can sum to, either way.
pub fn farthest_sum() -> i64
    ensures { result ≡ pos farthest }
{
    MOST_TRADES as i64 * FARTHEST_VALUE
}
