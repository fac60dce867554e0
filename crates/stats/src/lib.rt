// What a flow accumulated (stats.rs): ranges, and the counts of packets, octets and flags.
#![tactic(auto)]

pub mod counts;
pub mod range;
