//! Where to begin a search for a key: an index of the table's slots by their keys' hash, in memory that the caller lends.
//! A place is 0 (empty) or an entry: 19 bits of the key's hash, and the slot. When an entry leaves, those behind it move up, so
//! the places taken are those of the used slots and no more.
#![tactic(auto)]

ghost use Rattle.std.specs.Prelude.{◌≡◌, ◌+◌, ◌*◌, ◌≤◌, ◌<◌, length};
ghost use Rattle.slots.specs.Table.{slot, slots, holds, first_where, NoKeyTwice};
ghost use Rattle.index.specs.Hash.{hash_of};
ghost use Rattle.index.specs.Index.{home, entry_of, home_in, hash_absent, taken, Has, Tight, Indexed, Inserted, Forgotten, FirstPlace};

use memory::load_u64;
use slots::{HEADER_BYTES, SLOT_BYTES, USED};

/// How many places an index has.
const PLACES: usize = 16_384;

/// How many places are homes, where a search begins. The first of them is place 0.
const HOMES: u64 = 8192;

/// How many hashes an entry tells apart: 19 bits.
const TAGS: u64 = 524_288;

/// How many slots an entry tells apart.
const SLOTS: u64 = 8192;

/// The used slot with this key, whose hash is `hash`.
pub fn find(index: &[u32], state: &[u8], capacity: usize, key: &[u8], hash: u64) -> Option<usize>
    requires capacity_in_bounds { 256 + 640 * capacity ≤ length state.now }
    requires indexed { Indexed hash_of index.now state.now capacity }
    requires no_key_twice { NoKeyTwice state.now capacity }
    requires hash_value { hash ≡ hash_of key.now }
    ensures { result ≡ first_where (holds key.now) 0 (slots state.now capacity) }
{
    let tag = hash % TAGS;
    'slots: for place in (hash % HOMES) as usize..PLACES {
        let entry = index[place] as u64;
        if entry == 0 {
            return None;
        }
        if (entry - 1) / SLOTS != tag {
            continue;
        }
        let i = ((entry - 1) % SLOTS) as usize;
        let base = HEADER_BYTES + SLOT_BYTES * i;
        if state[base] != USED {
            continue;
        }
        if state[base + 1] as usize != key.len() {
            continue;
        }
        // Eight bytes at a time, then what is left.
        let words = key.len() / 8;
        for word in 0..words {
            if load_u64(state, base + 2 + 8 * word) != load_u64(key, 8 * word) {
                continue 'slots;
            }
        }
        for k in 8 * words..key.len() {
            if state[base + 2 + k] != key[k] {
                continue 'slots;
            }
        }
        return Some(i);
    }
    None
}

/// Whether no entry from the hash's home to the next empty place has the hash: then no slot is used under a key with it.
#[tactic(auto, using(crate::proofs::Look::scan_begins, crate::proofs::Look::scan_empty, crate::proofs::Look::scan_hits, crate::proofs::Look::scan_goes_on))]
pub fn is_absent(index: &[u32], hash: u64) -> bool
    requires { length index.now ≡ 16384 }
    ensures { result ≡ hash_absent index.now hash }
{
    let tag = hash % TAGS;
    for place in (hash % HOMES) as usize..PLACES {
        let entry = index[place] as u64;
        if entry == 0 {
            return true;
        }
        if (entry - 1) / SLOTS == tag {
            return false;
        }
    }
    true
}

/// The entry of slot `i` under a key with this hash.
fn entry_of(hash: u64, i: usize) -> u32
    requires { i < 4096 }
    ensures { result ≡ entry_of hash i }
{
    (hash % TAGS * SLOTS + i as u64 + 1) as u32
}

/// Puts slot `i` at the first empty place behind its home.
#[tactic(auto, using(crate::proofs::Look::look_begins, crate::proofs::Look::look_ends))]
pub fn insert(index: &mut [u32], i: usize, hash: u64)
    requires index_len { length index.old ≡ 16384 }
    requires index_bound { taken index.old ≤ 8192 }
    requires i_bound { i < 4096 }
    ensures { Inserted (home hash) (entry_of hash i) index.old index.new }
{
    // At most half of the places are taken, so there is one.
    for place in (hash % HOMES) as usize..PLACES {
        if index[place] == 0 {
            index[place] = entry_of(hash, i);
            return;
        }
    }
}

/// The first place from `from` on that holds `entry`, or as many as there are.
#[tactic(auto, using(crate::proofs::Look::seek_begins, crate::proofs::Look::seek_goes_on, crate::proofs::Look::seek_hits, crate::proofs::Look::seek_ends))]
fn place_of(index: &[u32], entry: u32, from: usize) -> usize
    requires index_len { length index.now ≡ 16384 }
    requires from_bound { from ≤ 16384 }
    ensures { FirstPlace index.now from entry result }
{
    for place in from..PLACES {
        if index[place] == entry {
            return place;
        }
    }
    PLACES
}

/// The home that an entry names.
fn home_in(entry: u32) -> usize
    requires { 0 < entry }
    ensures { result ≡ home_in entry }
{
    ((entry - 1) as u64 / SLOTS % HOMES) as usize
}

/// Takes slot `x` out of the index. What stands behind it and may stand before its place moves up, so that no empty place
/// comes between an entry and its home.
pub fn forget(index: &mut [u32], x: usize, hash: u64)
    requires tight { Tight index.old }
    requires x_bound { x < 4096 }
    requires has { Has index.old (entry_of hash x) }
    ensures { Forgotten (entry_of hash x) index.old index.new }
{
    let mut hole = place_of(index, entry_of(hash, x), (hash % HOMES) as usize);
    for place in hole + 1..PLACES {
        let entry = index[place];
        if entry == 0 {
            index[hole] = 0;
            return;
        }
        if hole < home_in(entry) {
            continue;
        }
        index[hole] = entry;
        hole = place;
    }
    index[hole] = 0;
}
