//! A day over any scenario model: its preparation, its session, and the slips that a session hands out.

#![tactic(auto)]

mod known;
pub mod phases;
pub mod slips;
