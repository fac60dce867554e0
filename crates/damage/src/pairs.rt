//! Two flows under keys that may not stand beside each other, and under some that may.
use crate::keys::{association, conversation, gre, lone_packet, no_endpoints, put_key, round};
use crate::places::{FIRST, Memory, SECOND};
use crate::tally::Tally;

/// Puts other keys in slots 0 and 2.
pub fn damage(rt: &impl Print, state: &Memory, tally: &mut Tally) {
    let (key, secured, tunnel, plain) = (conversation(), association(), gre(), no_endpoints());
    let pairs = [
        ("another key", key, secured),
        ("key twice", key, key),
        ("reversed key", key, key.reversed()),
        ("association twice", secured, secured),
        ("association reversed", secured, secured.reversed()),
        ("GRE reversed", tunnel, tunnel.reversed()),
        ("no endpoints, reversed", plain, plain.reversed()),
        ("key equal to its reverse", round(), lone_packet()),
    ];
    for (name, first, second) in pairs {
        let mut copy = *state;
        put_key(&mut copy, FIRST, first);
        put_key(&mut copy, SECOND, second);
        tally.judge(rt, name, &copy);
    }
}
