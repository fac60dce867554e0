//! The two flows that are put into the opened state.
use crate::keys::{conversation, lone_packet, put_key};
use crate::places::{FIRST, FIRST_RECORD, Memory, QUEUE, SECOND, SECOND_RECORD, WORD, put_words};

/// In no queue.
pub const NEVER: u64 = u64::MAX;

// When the flows are due: their end + T.
pub const FIRST_DUE: u64 = 1_000_005_000;

pub const SECOND_DUE: u64 = 1_000_007_000;

// A TCP conversation from 1000 to 5000: three packets forward and two back, with a SYN and a FIN each way.
const CONVERSATION: [u64; 37] = [
    1000, 5000, 0, 0, 58, 65, 1, 1, 0, 282, 0, // of no direction
    3, 168, 55, 61, 1, 1, 0, 0, 2, 0, 0, 0, 0, // forward
    2, 114, 55, 61, 1, 1, 0, 0, 2, 0, 0, 0, 0, // reverse
];

// One UDP packet at 7000, cut short by the capture, with nothing the other way.
const LONE_PACKET: [u64; 37] = [
    7000, 7000, 2, 0, 0, 0, 0, 0, 0, 90, 1, // of no direction
    1, 120, 121, 121, 0, 0, 0, 0, 0, 0, 0, 0, 0, // forward
    0, 0, 0, 0, 0, 0, 0, 0, 0, 0, 0, 0, 0, // reverse
];

pub fn put_flows(memory: &mut Memory) {
    put_key(memory, FIRST, conversation());
    put_words(memory, FIRST_RECORD, &CONVERSATION);
    put_key(memory, SECOND, lone_packet());
    put_words(memory, SECOND_RECORD, &LONE_PACKET);
    put_entries(memory, FIRST_DUE, NEVER, SECOND_DUE);
}

/// The queue's entries for slots 0, 1 and 2, and the nodes above them.
pub fn put_entries(memory: &mut Memory, first: u64, free: u64, second: u64) {
    let inner = free.min(second);
    let nodes = [inner.min(first), inner, first, free, second];
    put_words(memory, QUEUE + WORD, &nodes);
}
