//! Replaying a list of known answers: reading its lines, taking them apart, putting our own together, and comparing the two.
//!
//! A list is text, an answer a line, with one space between a line's fields. The functions here answer for any bytes at all.
#![tactic(auto)]

pub mod fields;
pub mod line;
pub mod list;
pub mod runner;
pub mod tally;
