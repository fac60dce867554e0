// Sound state, decided: on memory of any length and any bytes, in one pass over the slots. The pass builds the call's own memory on
// the way: the index of the used slots by their keys' hash, which finds a key that stands twice or under another's reversed key, and
// the list of the free slots.
ghost use Rattle.std.specs.Prelude.{◌≡◌, true, ◌+◌, ◌*◌, ◌≤◌, length};
ghost use Rattle.memory.specs.Decides.{Decides};
ghost use Rattle.slots.specs.Table.{slot};
ghost use Rattle.index.specs.Index.{hash_absent};
ghost use Rattle.state.specs.State.{Sound};
ghost use Rattle.state.specs.SlotTest.{HashSpelt, PlainHashed};
ghost use Rattle.state.specs.Check.{UsedAsked, UsedChecked, PlaceAsked, PlaceChecked, SlotAsked, SlotsAsked, CheckedTo, CheckAsked, Checked};

use crate::free;
use crate::header::header_is_sound;
use crate::keys::add_key;
use crate::slot::{entry_is_sound, record_is_sound, whole_key};
use flow::time::Nanos;
use plain::plain_at;

// Slot i's, read where its key lies: no key is made of the bytes.
fn plain_hash(state: &[u8], i: usize) -> Option<u64>
    requires { 256 + 624 * i + 624 ≤ length state.now }
    ensures { PlainHashed (slot state.now i) result }
{
    let base = 256 + 624 * i;
    let from = base + 2;
    match plain_at(state, from) {
        Some(key) => {
            if key.next == from + state[base + 1] as usize {
                return Some(key.hash);
            }
            None
        }
        None => None,
    }
}

// Slot i, which is used, and whose key has a hash that the index does not have: neither the key nor its reverse stands before it.
fn check_new(state: &[u8], i: usize, hash: u64, index: &mut [u32]) -> bool
    requires used_asked { UsedAsked state.now i index.old }
    requires hash_spelt { HashSpelt (slot state.now i) hash }
    requires hash_value { hash_absent index.old hash ≡ true }
    ensures { UsedChecked state.now i result index.old index.new }
{
    if record_is_sound(state, i) {
        index::insert(index, i, hash);
        return true;
    }
    false
}

// Slot i, which is used, by its key.
fn check_any(state: &[u8], i: usize, index: &mut [u32]) -> bool
    requires { UsedAsked state.now i index.old }
    ensures { UsedChecked state.now i result index.old index.new }
{
    let Some(key) = whole_key(slots::key_of(state, i)) else {
        return false;
    };
    if record_is_sound(state, i) {
        return add_key(state, i, key, index);
    }
    false
}

// Slot i, which is used: whether its bytes are those of a sound flow that may stand beside those before it. Most keys are plain and
// most hashes are new, so the key itself is read only where it has to be.
fn check_used(state: &[u8], i: usize, index: &mut [u32]) -> bool
    requires { UsedAsked state.now i index.old }
    ensures { UsedChecked state.now i result index.old index.new }
{
    if let Some(hash) = plain_hash(state, i) {
        if index::is_absent(index, hash) {
            return check_new(state, i, hash, index);
        }
    }
    check_any(state, i, index)
}

// Slot i goes into the index or into the list of free slots.
fn check_place(state: &[u8], i: usize, index: &mut [u32], free: &mut [u16]) -> bool
    requires { PlaceAsked state.now i index.old free.old }
    ensures { PlaceChecked state.now i result index.new free.new }
{
    if state[256 + 624 * i] == 1 {
        return check_used(state, i, index);
    }
    free::push(free, i);
    true
}

// Slot i, with its entry in the queue.
fn check_slot(
    state: &[u8],
    capacity: usize,
    timeout: Nanos,
    i: usize,
    index: &mut [u32],
    free: &mut [u16],
) -> bool
    requires { SlotAsked state.now capacity timeout.0 i index.old free.old }
    ensures { CheckedTo state.now capacity timeout.0 (i + 1) result index.new free.new }
{
    if entry_is_sound(state, capacity, timeout, i) {
        return check_place(state, i, index, free);
    }
    false
}

// The slots, one after another.
fn check_slots(
    state: &[u8],
    capacity: usize,
    timeout: Nanos,
    index: &mut [u32],
    free: &mut [u16],
) -> bool
    requires { SlotsAsked state.now capacity index.old free.old }
    ensures { CheckedTo state.now capacity timeout.0 capacity result index.new free.new }
{
    for i in 0..capacity {
        if check_slot(state, capacity, timeout, i, index, free) {
            continue;
        }
        return false;
    }
    true
}

// Whether the state is sound. Then the index has its used slots, and the list its free ones.
pub fn check(state: &[u8], index: &mut [u32], free: &mut [u16]) -> bool
    requires { CheckAsked index.old free.old }
    ensures { Checked state.now result index.new free.new }
{
    if state.len() < 256 {
        return false;
    }
    let header = table::load_header(state);
    let capacity = header.capacity as usize;
    let timeout = header.timeout;
    if header_is_sound(header, state.len()) {
        if table::tree_is_sound(state, capacity) {
            return check_slots(state, capacity, timeout, index, free);
        }
    }
    false
}

// Whether memory is a sound state.
pub fn is_sound(state: &[u8]) -> bool
    ensures { Decides result (Sound state.now) }
{
    let mut index = [0u32; 16384];
    let mut free = [0u16; 4097];
    check(state, &mut index, &mut free)
}
