// Keys of slots: whether one stands already, as it is or reversed.
ghost use Rattle.std.specs.Prelude.{◌≡◌, ◌+◌, ◌*◌, ◌≤◌, length, take, is_some};
ghost use Rattle.slots.specs.Table.{slot, key_of};
ghost use Rattle.index.specs.Reversed.{Absent};
ghost use Rattle.key.specs.Key.{reversed_key};
ghost use Rattle.rules.specs.Engine.{key_bytes};
ghost use Rattle.state.specs.SlotTest.{Alone, Denies, Searched, Adding, KeyAdded, FrontWritten};

use key::form::{key_len, write_key_at};
use key::key::FlowKey;

// The reversed key's form at the front of `bytes`, and its length.
pub fn write_reversed(bytes: &mut [u8], key: FlowKey) -> usize
    requires { 128 ≤ length bytes.old }
    ensures { FrontWritten (key_bytes (reversed_key key)) bytes.old bytes.new result }
{
    let reversed = key.reversed();
    match write_key_at(bytes, Some(0), reversed) {
        Some(n) => n,
        // Never, since 128 bytes hold every key.
        None => key_len(reversed),
    }
}

// The first n bytes.
pub fn front(bytes: &[u8], n: usize) -> &[u8]
    requires { n ≤ length bytes.now }
    ensures { result.now ≡ take n bytes.now }
{
    &bytes[0..n]
}

// Whether a slot before i is used under the key's reverse.
fn reverse_stands(state: &[u8], i: usize, key: FlowKey, hash: u64, index: &[u32]) -> bool
    requires { Searched state.now i key hash index.now }
    ensures { Denies result (Absent state.now i (key_bytes (reversed_key key))) }
{
    let mut bytes = [0u8; 128];
    let n = write_reversed(&mut bytes, key);
    index::find(index, state, i, front(&bytes, n), hash).is_some()
}

// Whether a slot before i is used under the key of slot i, or under its reverse unless the key is a security association's.
fn key_stands(state: &[u8], i: usize, key: FlowKey, hash: u64, index: &[u32]) -> bool
    requires searched { Searched state.now i key hash index.now }
    requires key_value { key_bytes key ≡ key_of (slot state.now i) }
    requires i_in_bounds { 256 + 624 * i + 624 ≤ length state.now }
    ensures { Denies result (Alone state.now i (key_bytes key)) }
{
    if index::find(index, state, i, slots::key_of(state, i), hash).is_some() {
        return true;
    }
    if key.endpoints.has_reverse_direction() {
        return reverse_stands(state, i, key, hash, index);
    }
    false
}

// Puts slot i into the index of the slots before it, unless its key or the reverse of it stands there.
pub fn add_key(state: &[u8], i: usize, key: FlowKey, index: &mut [u32]) -> bool
    requires { Adding state.now i key index.old }
    ensures { KeyAdded state.now i (key_bytes key) result index.old index.new }
{
    let hash = key.shard(524_288);
    if index::is_absent(index, hash) {
        index::insert(index, i, hash);
        return true;
    }
    if key_stands(state, i, key, hash, index) {
        return false;
    }
    index::insert(index, i, hash);
    true
}
