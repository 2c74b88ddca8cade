//! The figures of a client.
ghost use Rattle.std.specs.Prelude.{pos, ◌≤ℤ◌};

use cells::rows::Rows;

pub(crate) mod figuring;

/// What a client needs, has and lacks, in centavos.
#[derive(Clone, Copy)]
pub struct ClientFigures {
    /// The client's number.
    pub number: u8,
    /// Of each of the model's subportfolios, in their order.
    pub margins: Rows<i64, 8>,
    /// What is needed behind its positions, with what it owes of the day's settlement.
    pub need: i64,
    /// What it has put up.
    pub collateral: i64,
    /// What the collateral lacks of the need: 0 to 5 · 10^16.
    pub deficit: i64,
    ghost low: { pos 0 ≤ℤ deficit },
    ghost high: { deficit ≤ℤ pos 50000000000000000 },
}

// Kept by hand: no `Default` is derived for a type that keeps a fact about its fields.
impl Default for ClientFigures {
    ghost use Rattle.std.specs.Prelude.{◌≡◌};
    ghost use Rattle.statements.specs.Figured.{figures_in, no_figures};

    ghost is_default = { λ x. figures_in x ≡ no_figures };

    fn default() -> ClientFigures {
        ClientFigures {
            number: 0,
            margins: Rows::new(),
            need: 0,
            collateral: 0,
            deficit: 0,
        }
    }
}
