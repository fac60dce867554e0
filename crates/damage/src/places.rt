//! Where the fields of a state of capacity 3 lie, and how words are put there.
use listing::line::put;

pub const CAPACITY: u64 = 3;

pub const STATE_BYTES: usize = 2176;

/// The state, and some bytes more.
pub const MEMORY_BYTES: usize = 2184;

pub type Memory = [u8; MEMORY_BYTES];

// The header's words: the layout's number, the capacity, T, L, the resolution and the clock.
pub const LAYOUT: usize = 0;

pub const STORED_CAPACITY: usize = 8;

pub const TIMEOUT: usize = 16;

pub const LATENESS: usize = 24;

pub const RESOLUTION: usize = 32;

pub const CLOCK: usize = 40;

// Slot 0, its key's length, its key's form and its record.
pub const FIRST: usize = 256;

pub const FIRST_LENGTH: usize = 257;

pub const FIRST_FORM: usize = 258;

pub const FIRST_RECORD: usize = 336;

/// Slot 1.
pub const FREE: usize = 880;

// Slot 2, and its record.
pub const SECOND: usize = 1504;

pub const SECOND_RECORD: usize = 1584;

/// The queue's nodes, one word each. Those of the slots are 3, 4 and 5.
pub const QUEUE: usize = 2128;

/// How many bytes a word takes.
pub const WORD: usize = 8;

/// Words one behind another, of 8 bytes each with the low one first. What does not fit is cut off.
pub fn put_words(memory: &mut Memory, at: usize, words: &[u64]) {
    let mut at = at;
    for word in words {
        at = put(memory, at, &word.to_le_bytes());
    }
}
