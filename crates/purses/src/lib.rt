//! A purse of slips that wait to be spent. It asks for no memory.

#![tactic(auto)]

pub mod purse;
mod slots;
