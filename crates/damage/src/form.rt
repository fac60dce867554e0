//! Damage to the key's length and form, in slot 0.
use crate::damage::Change::Byte;
use crate::damage::Damage;
use crate::places::{FIRST_FORM, FIRST_LENGTH, Memory};
use crate::tally::Tally;

pub fn damage(rt: &impl Print, state: &Memory, tally: &mut Tally) {
    tally.judge_each(rt, state, &DAMAGES);
}

const DAMAGES: [Damage; 18] = [
    Damage("key length 0", &[Byte(FIRST_LENGTH, 0)]),
    Damage("key length one less", &[Byte(FIRST_LENGTH, 31)]),
    Damage("key length one more", &[Byte(FIRST_LENGTH, 33)]),
    Damage("key length 255", &[Byte(FIRST_LENGTH, 255)]),
    // Protocol, ethertype and the kind of endpoints. 134 is 6 with the top bit, which says that more follows, and 0 follows.
    Damage("protocol another", &[Byte(FIRST_FORM, 17)]),
    Damage("protocol not shortest", &[Byte(FIRST_FORM, 134)]),
    Damage("ethertype another", &[Byte(FIRST_FORM + 1, 1)]),
    Damage("endpoints another kind", &[Byte(FIRST_FORM + 2, 0)]),
    Damage("endpoints no kind", &[Byte(FIRST_FORM + 2, 4)]),
    // The source port's three bytes.
    Damage("port another", &[Byte(FIRST_FORM + 3, 0xd1)]),
    Damage("port above its bound", &[Byte(FIRST_FORM + 5, 4)]),
    Damage("port not shortest", &[Byte(FIRST_FORM + 5, 0)]),
    Damage("address another", &[Byte(FIRST_FORM + 12, 9)]),
    Damage("address no kind", &[Byte(FIRST_FORM + 8, 5)]),
    Damage("link address another", &[Byte(FIRST_FORM + 23, 9)]),
    // The VLAN count and the tunnel, which are the last two bytes.
    Damage("VLAN tag missing", &[Byte(FIRST_FORM + 30, 1)]),
    Damage("VLAN count 3", &[Byte(FIRST_FORM + 30, 3)]),
    Damage("tunnel id missing", &[Byte(FIRST_FORM + 31, 1)]),
];
