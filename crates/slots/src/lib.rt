//! The flow table: slots of 624 bytes behind a header of 256, in lent memory. Byte 0 of a slot is 1 where it is used,
//! byte 1 is its key's length, and the key follows.
#![tactic(auto)]

ghost use Rattle.std.specs.Prelude.{◌≡◌, ◌∷◌, [], ◌+◌, ◌*◌, ◌≤◌, length};
ghost use Rattle.memory.specs.Bytes.{patch};
ghost use Rattle.slots.specs.Table.{slot, key_of};

/// Where the slots begin.
pub const HEADER_BYTES: usize = 256;

/// The length of a slot.
pub const SLOT_BYTES: usize = 624;

/// Byte 0 of a slot that is used.
pub const USED: u8 = 1;

const FREE: u8 = 0;

/// Marks slot `i` used, under `key`.
#[tactic(auto, using(crate::proofs::Laws::key_put))]
pub fn put_key(state: &mut [u8], i: usize, key: &[u8])
    requires i_in_bounds { 256 + 624 * i + 624 ≤ length state.old }
    requires key_len_bound { length key.now ≤ 72 }
    ensures { state.new ≡ patch state.old (256 + 624 * i) (1 ∷ length key.now ∷ key.now) }
{
    let base = HEADER_BYTES + SLOT_BYTES * i;
    state[base] = USED;
    state[base + 1] = key.len() as u8;
    memory::copy_at(state, base + 2, key);
}

/// Gives slot `i` back.
#[tactic(auto, using(memory::proofs::Laws::set_patch))]
pub fn free(state: &mut [u8], i: usize)
    requires { 256 + 624 * i + 624 ≤ length state.old }
    ensures { state.new ≡ patch state.old (256 + 624 * i) (0 ∷ []) }
{
    state[HEADER_BYTES + SLOT_BYTES * i] = FREE;
}

/// Slot `i`'s key, where it lies.
#[tactic(auto, using(crate::proofs::Laws::key_lent))]
pub fn key_of(state: &[u8], i: usize) -> &[u8]
    requires { 256 + 624 * i + 624 ≤ length state.now }
    ensures { result.now ≡ key_of (slot state.now i) }
{
    let base = HEADER_BYTES + SLOT_BYTES * i;
    let n = state[base + 1] as usize;
    &state[base + 2..base + 2 + n]
}
