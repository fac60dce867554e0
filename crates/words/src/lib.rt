// A flow's record as 37 words of 64 bits, one for each field, and back.
#![tactic(auto)]

pub mod counting;
pub mod fields;
pub mod words;
