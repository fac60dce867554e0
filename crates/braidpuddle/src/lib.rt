// The face for C and Rust: the engine's calls in numbers and slices; a refusal is document 01's number. No function has a `requires`. The forms, keys
// and a host's own record are in a crate of their own, braidpuddle_forms: so each function on a packet's way has one caller here, and is inlined.
#![tactic(auto)]

pub mod calls;
