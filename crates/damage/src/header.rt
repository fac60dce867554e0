//! Damage to the header.
use crate::damage::Change::{Byte, Entries, Words};
use crate::damage::Damage;
use crate::flows::NEVER;
use crate::places::{
    CLOCK, LATENESS, LAYOUT, Memory, RESOLUTION, STATE_BYTES, STORED_CAPACITY, TIMEOUT,
};
use crate::tally::Tally;
use listing::fields::part;

pub fn damage(rt: &impl Print, state: &Memory, tally: &mut Tally) {
    tally.judge_each(rt, state, &SIZES);
    for (name, length) in LENGTHS {
        tally.judge(rt, name, part(state, 0, length));
    }
    tally.judge_each(rt, state, &TIMES);
}

const SECOND: u64 = 1_000_000_000;

const TOP: u64 = u64::MAX;

const SIZES: [Damage; 7] = [
    Damage("layout 0", &[Words(LAYOUT, &[0])]),
    Damage("layout 2", &[Words(LAYOUT, &[2])]),
    Damage("capacity 0", &[Words(STORED_CAPACITY, &[0])]),
    Damage("capacity 2", &[Words(STORED_CAPACITY, &[2])]),
    Damage("capacity 4", &[Words(STORED_CAPACITY, &[4])]),
    Damage("capacity 4097", &[Words(STORED_CAPACITY, &[4097])]),
    Damage(
        "capacity 18446744073709551615",
        &[Words(STORED_CAPACITY, &[TOP])],
    ),
];

// The state's own bytes, but not all of the memory.
const LENGTHS: [(&str, usize); 4] = [
    ("no memory", 0),
    ("memory of the header alone", 256),
    ("memory one byte short", STATE_BYTES - 1),
    ("memory just long enough", STATE_BYTES),
];

const TIMES: [Damage; 16] = [
    // T and L. The queue's entries are the flows' end and one second.
    Damage("T not whole milliseconds", &[Words(TIMEOUT, &[SECOND + 1])]),
    Damage("T of another L", &[Words(TIMEOUT, &[3 * SECOND])]),
    Damage("L one more", &[Words(LATENESS, &[SECOND / 2 + 1])]),
    Damage("L one less", &[Words(LATENESS, &[SECOND / 2 - 1])]),
    Damage(
        "T and L of 3 seconds",
        &[Words(TIMEOUT, &[3 * SECOND, SECOND])],
    ),
    Damage(
        "T and L of 999 milliseconds",
        &[Words(TIMEOUT, &[999_000_000, 499_500_000])],
    ),
    Damage("T held at the top", &[Words(TIMEOUT, &[TOP, SECOND])]),
    Damage("T one below the top", &[Words(TIMEOUT, &[TOP - 1, SECOND])]),
    Damage("resolution 1", &[Words(RESOLUTION, &[1])]),
    Damage("resolution 2", &[Words(RESOLUTION, &[2])]),
    Damage("clock 1", &[Words(CLOCK, &[1])]),
    Damage("clock at the top", &[Words(CLOCK, &[TOP])]),
    // The first and the last of the spare bytes.
    Damage("spare header bytes", &[Byte(48, 255), Byte(255, 255)]),
    // A timeout of 0, with which the queue is empty and the clock stays at 0.
    Damage(
        "timeout 0",
        &[Entries(NEVER, NEVER, NEVER), Words(TIMEOUT, &[0, 0])],
    ),
    Damage(
        "timeout 0, clock 1",
        &[
            Entries(NEVER, NEVER, NEVER),
            Words(CLOCK, &[1]),
            Words(TIMEOUT, &[0, 0]),
        ],
    ),
    Damage("timeout 0, queue not empty", &[Words(TIMEOUT, &[0, 0])]),
];
