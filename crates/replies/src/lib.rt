//! The console's replies to the orders of a day, as text on a line of fixed room.

#![tactic(auto)]

pub mod day;
pub mod notes;
pub mod statement;
