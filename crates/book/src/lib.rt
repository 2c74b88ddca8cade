//! The book of a day: its tables, and what each call does to them. What needs a scenario model is worked out above it.

#![tactic(auto)]

pub mod books;
pub mod clients;
pub mod funds;
pub mod stubs;
pub mod traders;
pub mod trades;
