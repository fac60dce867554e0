// State memory: whether it is sound, and how it is opened.
#![tactic(auto)]

pub mod check;
pub mod free;
pub mod header;
pub mod keys;
pub mod opening;
pub mod slot;
