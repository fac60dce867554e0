//! Acting on a list of slots: their flows are handed out, or the queue names them again.
#![tactic(auto)]

pub mod out;
pub mod slot;
