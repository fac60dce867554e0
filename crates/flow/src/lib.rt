// A flow: when it happened, its record and its counting (mod.rs, time.rs).
#![tactic(auto)]

pub mod host;
pub mod record;
pub mod sound;
pub mod sums;
pub mod time;
