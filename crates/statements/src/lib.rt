//! A trader's statement by the book: what each of its clients needs and lacks, the risk, what stands behind it, and the limit. Money is in centavos.

#![tactic(auto)]

pub mod clients;
mod collecting;
pub mod days;
pub mod needs;
pub mod statement;
pub mod stating;
mod totals;
