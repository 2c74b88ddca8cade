//! What positions and a settlement amount ask of a client.
use cells::rows::Rows;

/// The margin of each subportfolio of a model, and what is needed in all, in centavos.
#[derive(Clone, Copy)]
pub struct Account {
    /// Of each of the model's subportfolios, in their order.
    pub margins: Rows<i64, 8>,
    /// Not below 0.
    pub need: i64,
}
