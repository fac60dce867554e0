//! Damage to the words of slot 0's record that belong to no direction. An optional's word is 0 for absent, else its value plus 1.
use crate::damage::Change::Words;
use crate::damage::Damage;
use crate::places::{FIRST_RECORD, Memory, WORD};
use crate::tally::Tally;

pub fn damage(rt: &impl Print, state: &Memory, tally: &mut Tally) {
    tally.judge_each(rt, state, &DAMAGES);
}

// The words, in their order.
const START: usize = FIRST_RECORD;

const END: usize = FIRST_RECORD + WORD;

const START_STATE: usize = FIRST_RECORD + 2 * WORD;

const RESOLUTION: usize = FIRST_RECORD + 3 * WORD;

const TTL_MINIMUM: usize = FIRST_RECORD + 4 * WORD;

const TTL_MAXIMUM: usize = FIRST_RECORD + 5 * WORD;

const DSCP: usize = FIRST_RECORD + 6 * WORD;

const ECN: usize = FIRST_RECORD + 7 * WORD;

const ICMP: usize = FIRST_RECORD + 8 * WORD;

const CAPTURED_OCTETS: usize = FIRST_RECORD + 9 * WORD;

const TRUNCATED: usize = FIRST_RECORD + 10 * WORD;

const DAMAGES: [Damage; 24] = [
    // Start 1000 and end 5000. The queue's entry is the end + T.
    Damage("start at the end", &[Words(START, &[5000])]),
    Damage("start after the end", &[Words(START, &[5001])]),
    Damage("end one later", &[Words(END, &[5001])]),
    Damage("end one earlier", &[Words(END, &[4999])]),
    Damage("start state 2", &[Words(START_STATE, &[2])]),
    Damage("start state 3", &[Words(START_STATE, &[3])]),
    Damage("record resolution 1", &[Words(RESOLUTION, &[1])]),
    Damage("record resolution 2", &[Words(RESOLUTION, &[2])]),
    Damage("TTL absent", &[Words(TTL_MINIMUM, &[0, 0])]),
    Damage("TTL minimum alone", &[Words(TTL_MAXIMUM, &[0])]),
    Damage("TTL maximum alone", &[Words(TTL_MINIMUM, &[0])]),
    Damage("TTL minimum above maximum", &[Words(TTL_MINIMUM, &[66])]),
    Damage("TTL word 256", &[Words(TTL_MAXIMUM, &[256])]),
    Damage("TTL word 257", &[Words(TTL_MAXIMUM, &[257])]),
    Damage("DSCP word 256", &[Words(DSCP, &[256])]),
    Damage("DSCP word 257", &[Words(DSCP, &[257])]),
    Damage("ECN word 256", &[Words(ECN, &[256])]),
    Damage("ECN word 257", &[Words(ECN, &[257])]),
    Damage("ICMP word 65536", &[Words(ICMP, &[65536])]),
    Damage("ICMP word 65537", &[Words(ICMP, &[65537])]),
    Damage("captured octets 0", &[Words(CAPTURED_OCTETS, &[0])]),
    Damage(
        "captured octets at the top",
        &[Words(CAPTURED_OCTETS, &[u64::MAX])],
    ),
    Damage("truncated 1", &[Words(TRUNCATED, &[1])]),
    Damage("truncated 2", &[Words(TRUNCATED, &[2])]),
];
