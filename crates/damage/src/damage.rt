//! What is put in the place of a state's bytes.
use crate::flows::put_entries;
use crate::places::{Memory, put_words};
use listing::line::put;

/// One piece of a damage.
#[derive(Debug, Clone, Copy)]
pub enum Change {
    /// A byte at a place.
    Byte(usize, u8),
    /// Words from a place on, one behind another.
    Words(usize, &'static [u64]),
    /// The queue's entries for slots 0, 1 and 2, with the nodes above them as they should be.
    Entries(u64, u64, u64),
}

/// A name, and what is changed at once, one piece after another.
#[derive(Debug, Clone, Copy)]
pub struct Damage(pub &'static str, pub &'static [Change]);

impl Damage {
    /// A copy of the state with the damage.
    pub fn of(&self, state: &Memory) -> Memory {
        let mut copy = *state;
        for change in self.1 {
            match *change {
                Change::Byte(at, byte) => {
                    put(&mut copy, at, &[byte]);
                }
                Change::Words(at, words) => put_words(&mut copy, at, words),
                Change::Entries(first, free, second) => put_entries(&mut copy, first, free, second),
            }
        }
        copy
    }
}
