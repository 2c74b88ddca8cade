//! What a desk is told.
use book::stubs::Stub;
use refusals::Refusal;

/// Why an order is no call where it stands.
#[derive(Clone, Copy, Debug, PartialEq, Eq)]
pub enum Misplaced {
    /// It belongs to the session, which is not open.
    NotOpen,
    /// It belongs to the preparation, which is over.
    PreparationOver,
    /// No such slip is held.
    NoSlipHeld,
}

/// What a desk is told of an order, but for a statement.
#[derive(Clone, Copy, Debug, PartialEq, Eq)]
pub enum Reply {
    /// A trader was entered under a number.
    Trader(u64),
    /// A client was entered under a number.
    Client(u64),
    /// A trade was entered under a number.
    Trade(u64),
    /// A slip was handed out, and is held.
    Slip(Stub),
    /// The order was carried out.
    Accepted,
    /// The order is refused.
    Refused(Refusal),
    /// The order is no call.
    Misplaced(Misplaced),
}
