//! Lines of text from an input, and the start of a file, in fixed room: nothing here asks for memory, and whatever bytes come, the reading
//! goes on until its source ends or fails.

#![tactic(auto)]

pub mod input;
pub mod line;
pub mod start;
