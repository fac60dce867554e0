//! Damage to a direction without packets, in slot 2, and to the sums over both directions, in slot 0.
use crate::damage::Change::Words;
use crate::damage::Damage;
use crate::places::{FIRST_RECORD, Memory, SECOND_RECORD, WORD};
use crate::tally::Tally;

pub fn damage(rt: &impl Print, state: &Memory, tally: &mut Tally) {
    tally.judge_each(rt, state, &DAMAGES);
}

// The direction of slot 2 that has packets.
const SECOND_FORWARD: usize = SECOND_RECORD + 11 * WORD;

// The octets, the range of lengths and a flag's count of the direction of slot 2 that has no packets.
const NO_OCTETS: usize = SECOND_RECORD + 25 * WORD;

const NO_LENGTHS: usize = SECOND_RECORD + 26 * WORD;

const NO_FLAG: usize = SECOND_RECORD + 28 * WORD;

// The packets and octets of the forward direction of slot 0. The reverse one has 2 packets and 114 octets.
const PACKETS: usize = FIRST_RECORD + 11 * WORD;

const OCTETS: usize = FIRST_RECORD + 12 * WORD;

const DAMAGES: [Damage; 8] = [
    // The one packet of slot 2 is taken out of every count.
    Damage("no packet at all", &[Words(SECOND_FORWARD, &[0, 0, 0, 0])]),
    Damage("octets without packets", &[Words(NO_OCTETS, &[1])]),
    Damage(
        "length range without packets",
        &[Words(NO_LENGTHS, &[61, 61])],
    ),
    Damage("flag count without packets", &[Words(NO_FLAG, &[1])]),
    Damage(
        "packets together at the top",
        &[Words(PACKETS, &[u64::MAX - 2])],
    ),
    Damage(
        "packets together past the top",
        &[Words(PACKETS, &[u64::MAX - 1])],
    ),
    Damage(
        "octets together at the top",
        &[Words(OCTETS, &[u64::MAX - 114])],
    ),
    Damage(
        "octets together past the top",
        &[Words(OCTETS, &[u64::MAX - 113])],
    ),
];
