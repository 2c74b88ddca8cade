//! The figures of a limit statement, over any scenario model. Money is in centavos.

#![tactic(auto)]

pub mod accounts;
mod answers;
pub mod bounds;
pub mod cash;
mod counting;
pub mod losses;
pub mod margins;
pub mod markets;
pub mod marks;
pub mod needs;
pub mod opens;
pub mod position;
pub mod positions;
pub mod prices;
mod products;
mod rows;
mod tally;
pub mod utilisations;
