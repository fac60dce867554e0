//! One packet's flows are changed: the one that step 1 ends is handed out, and the one that takes the packet is kept or handed out.
#![tactic(auto)]

pub mod keep;
pub mod settle;
