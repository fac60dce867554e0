//! What leaves, decided before anything is done: the list of a sweep's slots, and that of a drain's.
#![tactic(auto)]

pub mod drain;
mod order;
pub mod sweep;
