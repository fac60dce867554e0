//! What one packet will do, decided before anything is done: on the flows as its sweep will leave them.
#![tactic(auto)]

pub mod choose;
pub mod decide;
pub mod search;
pub mod steady;
