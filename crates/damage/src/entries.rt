//! Damage to the queue, and to the bytes behind the state.
use crate::damage::Change::{Entries, Words};
use crate::damage::Damage;
use crate::flows::{FIRST_DUE, NEVER, SECOND_DUE};
use crate::places::{Memory, QUEUE, STATE_BYTES, TIMEOUT, WORD};
use crate::tally::Tally;

pub fn damage(rt: &impl Print, state: &Memory, tally: &mut Tally) {
    tally.judge_each(rt, state, &DAMAGES);
}

const DAMAGES: [Damage; 11] = [
    Damage(
        "entry one later than end and T",
        &[Entries(FIRST_DUE + 1, NEVER, SECOND_DUE)],
    ),
    Damage(
        "entry one earlier",
        &[Entries(FIRST_DUE - 1, NEVER, SECOND_DUE)],
    ),
    Damage("entry 0", &[Entries(0, NEVER, SECOND_DUE)]),
    // Each open flow is named, and no free slot.
    Damage("entry missing", &[Entries(NEVER, NEVER, SECOND_DUE)]),
    Damage("queue empty", &[Entries(NEVER, NEVER, NEVER)]),
    Damage(
        "entry of a free slot",
        &[Entries(FIRST_DUE, SECOND_DUE, SECOND_DUE)],
    ),
    // Nodes 1 and 2 above the entries, and node 0, which is spare.
    Damage("root wrong", &[Words(QUEUE + WORD, &[FIRST_DUE + 1])]),
    Damage(
        "inner node wrong",
        &[Words(QUEUE + 2 * WORD, &[SECOND_DUE + 1])],
    ),
    Damage("spare node", &[Words(QUEUE, &[0])]),
    // The latest entry that is one at all.
    Damage(
        "T held at the top, latest entry",
        &[
            Entries(NEVER - 1, NEVER, NEVER - 1),
            Words(TIMEOUT, &[NEVER, 1_000_000_000]),
        ],
    ),
    Damage("bytes beyond the state", &[Words(STATE_BYTES, &[0])]),
];
