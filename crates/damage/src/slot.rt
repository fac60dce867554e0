//! Damage to the used byte and to the spare bytes of a slot.
use crate::damage::Change::{Byte, Words};
use crate::damage::Damage;
use crate::places::{FIRST, FREE, Memory};
use crate::tally::Tally;

pub fn damage(rt: &impl Print, state: &Memory, tally: &mut Tally) {
    tally.judge_each(rt, state, &DAMAGES);
}

const DAMAGES: [Damage; 6] = [
    Damage("used byte cleared", &[Byte(FIRST, 0)]),
    Damage("used byte 2", &[Byte(FIRST, 2)]),
    Damage("free slot marked used", &[Byte(FREE, 1)]),
    // A key's length, a byte of its form, a word of the record and the last byte, none of which is a flow's.
    Damage(
        "bytes of a free slot",
        &[
            Byte(FREE + 1, 255),
            Byte(FREE + 2, 255),
            Words(FREE + 96, &[u64::MAX]),
            Byte(FREE + 623, 255),
        ],
    ),
    // The first and the last byte between the key and the record, and between the record and the next slot.
    Damage(
        "spare bytes behind a key",
        &[Byte(FIRST + 34, 255), Byte(FIRST + 79, 255)],
    ),
    Damage(
        "spare bytes behind a record",
        &[Byte(FIRST + 376, 255), Byte(FIRST + 623, 255)],
    ),
];
