//! What identifies a flow, and its byte form.
#![tactic(auto)]

pub mod encapsulation;
pub mod form;
pub mod key;
pub mod link;
mod parts;
pub mod vlan;
