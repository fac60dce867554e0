//! The calls on a state that the caller lends: sweep and drain.
#![tactic(auto)]

pub mod clock;
pub mod drain;
pub mod sweep;
