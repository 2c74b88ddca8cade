//! The statement of a trader.
ghost use Rattle.std.specs.Prelude.{◌≡◌};
ghost use Rattle.statements.specs.Stated.{blank, statement_in};

use crate::clients::ClientFigures;
use cells::rows::Rows;

/// What a trader's clients need and lack, the risk, what stands behind it, and what that leaves, in centavos.
#[derive(Clone, Copy)]
pub struct Statement {
    /// Each client of the trader, by rising number.
    pub clients: Rows<ClientFigures, 128>,
    /// What the clients that lack most lack together, as many as a bad day may name.
    pub specified: i64,
    /// The risk of the trades that have no client yet.
    pub unspecified: i64,
    /// Both risks together.
    pub risk: i64,
    /// What stands behind the trader: its intraday limit, its own collateral, and the member's in its favour.
    pub backing: i64,
    /// What the backing leaves over the risk: below 0 where it does not suffice.
    pub limit: i64,
    /// How much of the backing the risk takes up, in whole percent, rounded up. `None` where nothing stands behind the risk.
    pub used: Option<u128>,
}

impl Statement {
    /// A place for a statement, in which nothing is stated.
    pub fn new() -> Statement
        ensures { statement_in result ≡ blank }
    {
        Statement {
            clients: Rows::new(),
            specified: 0,
            unspecified: 0,
            risk: 0,
            backing: 0,
            limit: 0,
            used: Some(0),
        }
    }
}
