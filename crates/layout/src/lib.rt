//! Where the numbers of a sheet stand in its file.

#![tactic(auto)]

mod bytes;
pub mod fields;
pub mod kinds;
