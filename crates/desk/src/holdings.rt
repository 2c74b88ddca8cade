//! The slips of a day.
use purses::purse::Purse;

/// The slips that the session handed out and that are held, and those that were brought from another session.
pub(crate) struct Holdings {
    pub(crate) held: Purse,
    pub(crate) brought: Purse,
}
