//! The orders that lines give.

#![tactic(auto)]

pub mod calls;
mod fields;
mod numbers;

pub use numbers::{amount, whole};
