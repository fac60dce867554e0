// The face for C and Rust: forms, keys and a host's own record, in numbers and slices only. An optional is 0 for absent, else its value plus 1; a
// refusal is document 01's number. No function has a `requires`.
#![tactic(auto)]

pub mod facts;
pub mod form;
pub mod host;
pub mod keys;
mod report;
