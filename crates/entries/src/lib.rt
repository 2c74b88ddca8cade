//! The calls that enter traders, clients, trades and prices into a book, and those that change where a trade stands.
//! Where a call asks whether the model knows a contract, it is told: the contract's number if the model has it, or nothing.

#![tactic(auto)]

mod lots;
pub mod parties;
mod tests;
pub mod trading;
