//! What slips say.
use crate::funds::Fund;
use orders::Holder;

/// What a slip says: its serial, the holder whose collateral was handed out, and how much.
#[derive(Clone, Copy, Debug, PartialEq, Eq)]
pub struct Stub {
    /// Serials rise by one from 1.
    pub serial: u32,
    /// Whose collateral it was.
    pub holder: Holder,
    /// How much was handed out.
    pub amount: Fund,
}

// Kept by hand: a derive would take the holder's default, and each variant of `Holder` carries a number, so that none is derived for it.
impl Default for Stub {
    ghost use Rattle.std.specs.Prelude.{◌≡◌};
    ghost use Rattle.rules.specs.Ledger.{no_slip};
    ghost use Rattle.book.specs.Means.{slip_in};

    ghost is_default = { λ x. slip_in x ≡ no_slip };

    fn default() -> Stub {
        Stub {
            serial: 0,
            holder: Holder::Client(0),
            amount: Fund::none(),
        }
    }
}
