//! Scenario sheets: one call fills a sheet from the bytes of a file, or refuses them; each kind of sheet is a scenario model.

#![tactic(auto)]

mod accepted;
mod decode;
mod filling;
pub mod index;
pub mod kinds;
pub mod models;
pub mod multipliers;
pub mod shocks;
