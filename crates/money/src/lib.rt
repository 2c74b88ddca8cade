//! The calls that move money in a book: deposits, slips, settlement amounts, and the needs at the opening.

#![tactic(auto)]

mod accounts;
pub mod settling;
mod slips;
pub mod vaults;
