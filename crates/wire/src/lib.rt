//! The packet form and the record form: what probes hand in and what comes out.
#![tactic(auto)]

pub mod packet;
mod parts;
pub mod record;
