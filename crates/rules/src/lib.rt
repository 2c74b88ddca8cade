//! The rules of a day: the ledger, the calls, the causes of refusal, limits, bad days, runs, and the law that every run keeps.
//!
//! The definitions stand in `specs/`, their laws in `proofs/`. The code here has the bounds of a ledger, and functions that stand for theorems: the contract of each states one.

#![tactic(auto)]

pub mod bounds;
pub mod laws;
