//! A whole day at a desk: orders come one at a time, each is carried out and answered at once, until the desk has no more.

#![tactic(auto)]

pub mod desks;
mod holdings;
mod outcomes;
mod preparing;
pub mod replies;
pub mod serving;
mod spending;
mod trading;
