//! State memory, lent by the caller. In a state of capacity c lie, one behind another:
//!     header   256 bytes: words of 8 bytes at 0 (the layout's number, 1), 8 (the capacity), 16 (T), 24 (L), 32 (the resolution)
//!              and 40 (the clock W); the rest is spare
//!     slots    c of 624 bytes: byte 0 is 1 where the slot is used, byte 1 the length of its key, whose form follows; from 80 the
//!              record's 37 words of 8 bytes, of which word 1, at 88, is its end; from 376 on spare
//!     queue    its tree, 16 bytes for each slot
//! What lies behind 256 + 640 c is the caller's.
#![tactic(auto)]

ghost use Rattle.std.specs.Prelude.{◌≡◌, ◌∷◌, [], ◌+◌, ◌*◌, ◌≤◌, ◌<◌, length, replicate};
ghost use Rattle.memory.specs.Bytes.{part, patch, bytes_of, words_at};
ghost use Rattle.memory.specs.Decides.{Decides};
ghost use Rattle.queue.specs.Tree.{Sound};
ghost use Rattle.slots.specs.Table.{slot};
ghost use Rattle.table.specs.Header.{header_of, header_words, with_clock, blank_header};
ghost use Rattle.table.specs.View.{view, slot_of, with_header, with_slot, NoFlow, Cleared};
ghost use Rattle.table.specs.Due.{end_of, due_of, due_for, DuePut, NextDue, QueueCleared};

use flow::time::Nanos;
use slots::{HEADER_BYTES, SLOT_BYTES};

/// The number of this layout.
const LAYOUT: u64 = 1;

/// The length of the queue's tree for each slot.
const QUEUE_BYTES: usize = 16;

/// The length of a node of the tree.
const NODE_BYTES: usize = 8;

/// Where the clock lies in the header.
const CLOCK_AT: usize = 40;

/// Where the record lies in a slot.
const RECORD_AT: usize = 80;

/// The length of a word of the record.
const WORD_BYTES: usize = 8;

/// Where the record's end lies in a slot.
const END_AT: usize = 88;

/// The words of a header.
#[derive(Clone, Copy, Debug, PartialEq, Eq)]
pub struct Header {
    pub layout: u64,
    pub capacity: u64,
    pub timeout: Nanos,
    pub lateness: Nanos,
    pub resolution: u64,
    pub clock: Nanos,
}

/// The header's words.
#[tactic(auto, using(crate::proofs::HeaderLaws::header_loaded))]
pub fn load_header(state: &[u8]) -> Header
    requires { 256 ≤ length state.now }
    ensures { result ≡ header_of (part state.now 0 256) }
{
    Header {
        layout: memory::load_u64(state, 0),
        capacity: memory::load_u64(state, 8),
        timeout: Nanos(memory::load_u64(state, 16)),
        lateness: Nanos(memory::load_u64(state, 24)),
        resolution: memory::load_u64(state, 32),
        clock: Nanos(memory::load_u64(state, CLOCK_AT)),
    }
}

/// Puts the clock's new time into the header.
#[tactic(auto, using(crate::proofs::HeaderLaws::clock_put))]
pub fn store_clock(state: &mut [u8], capacity: usize, clock: Nanos)
    requires { 256 + 640 * capacity ≤ length state.old }
    ensures { view capacity state.new ≡ with_header (with_clock clock.0 (view capacity state.old).header) (view capacity state.old) }
{
    memory::store_u64(state, CLOCK_AT, clock.0);
}

/// Marks slot `i` used, under `key`.
#[tactic(auto, using(crate::proofs::SlotLaws::key_put))]
pub fn put_key(state: &mut [u8], capacity: usize, i: usize, key: &[u8])
    requires capacity_in_bounds { 256 + 640 * capacity ≤ length state.old }
    requires i_lt_capacity { i < capacity }
    requires key_len_bound { length key.now ≤ 72 }
    ensures { view capacity state.new ≡ with_slot i (patch (slot_of (view capacity state.old).table i) 0 (1 ∷ length key.now ∷ key.now)) (view capacity state.old) }
{
    slots::put_key(state, i, key);
}

/// Gives slot `i` back.
#[tactic(auto, using(crate::proofs::SlotLaws::free_put))]
pub fn free(state: &mut [u8], capacity: usize, i: usize)
    requires capacity_in_bounds { 256 + 640 * capacity ≤ length state.old }
    requires i_lt_capacity { i < capacity }
    ensures { view capacity state.new ≡ with_slot i (patch (slot_of (view capacity state.old).table i) 0 (0 ∷ [])) (view capacity state.old) }
{
    slots::free(state, i);
}

/// Stores words of slot `i`'s record, from word `from` on.
#[tactic(auto, using(crate::proofs::SlotLaws::run_put))]
pub fn store_run(state: &mut [u8], capacity: usize, i: usize, from: usize, ws: &[u64])
    requires capacity_in_bounds { 256 + 640 * capacity ≤ length state.old }
    requires i_lt_capacity { i < capacity }
    requires ws_bound { from + length ws.now ≤ 37 }
    ensures { view capacity state.new ≡ with_slot i (patch (slot_of (view capacity state.old).table i) (80 + 8 * from) (bytes_of ws.now)) (view capacity state.old) }
{
    let to = HEADER_BYTES + SLOT_BYTES * i + (RECORD_AT + WORD_BYTES * from);
    memory::store_words(state, to, ws);
}

/// Stores a record's words in slot `i`.
pub fn store_record_words(state: &mut [u8], capacity: usize, i: usize, ws: &[u64])
    requires capacity_in_bounds { 256 + 640 * capacity ≤ length state.old }
    requires i_lt_capacity { i < capacity }
    requires ws_len { length ws.now ≡ 37 }
    ensures { view capacity state.new ≡ with_slot i (patch (slot_of (view capacity state.old).table i) 80 (bytes_of ws.now)) (view capacity state.old) }
{
    store_run(state, capacity, i, 0, ws);
}

/// Words of slot `i`'s record, from word `from` on.
#[tactic(auto, using(crate::proofs::SlotLaws::run_loaded))]
pub fn load_run(state: &[u8], i: usize, from: usize, ws: &mut [u64])
    requires ws_bound { from + length ws.old ≤ 37 }
    requires i_in_bounds { 256 + 624 * i + 624 ≤ length state.now }
    ensures { ws.new ≡ words_at (slot state.now i) (80 + 8 * from) (length ws.old) }
{
    let at = HEADER_BYTES + SLOT_BYTES * i + (RECORD_AT + WORD_BYTES * from);
    memory::load_words(state, at, ws);
}

/// The words of slot `i`'s record.
#[tactic(auto, using(crate::proofs::SlotLaws::words_loaded))]
pub fn load_record_words(state: &[u8], i: usize, ws: &mut [u64])
    requires ws_len { length ws.old ≡ 37 }
    requires i_in_bounds { 256 + 624 * i + 624 ≤ length state.now }
    ensures { ws.new ≡ words_at (slot state.now i) 80 37 }
{
    load_run(state, i, 0, ws);
}

/// The time that slot `i`'s flow ends.
#[tactic(auto, using(crate::proofs::SlotLaws::end_at))]
pub fn end_of(state: &[u8], i: usize) -> u64
    requires { 256 + 624 * i + 624 ≤ length state.now }
    ensures { result ≡ end_of (slot state.now i) }
{
    memory::load_u64(state, HEADER_BYTES + SLOT_BYTES * i + END_AT)
}

/// When the queue says that slot `i` is due.
#[tactic(auto, using(crate::proofs::Laws::due_view))]
pub fn due_of(state: &[u8], capacity: usize, i: usize) -> u64
    requires capacity_in_bounds { 256 + 640 * capacity ≤ length state.now }
    requires i_lt_capacity { i < capacity }
    ensures { result ≡ due_of capacity (view capacity state.now).tree i }
{
    memory::load_u64(
        state,
        HEADER_BYTES + SLOT_BYTES * capacity + NODE_BYTES * (capacity + i),
    )
}

/// When slot `i`'s flow is due: its end + T, at most 2^64 − 2.
pub fn real_due(state: &[u8], i: usize, timeout: u64) -> u64
    requires { 256 + 624 * i + 624 ≤ length state.now }
    ensures { result ≡ due_for (end_of (slot state.now i)) timeout }
{
    end_of(state, i)
        .saturating_add(timeout)
        .min(queue::NEVER - 1)
}

/// Slot `i`'s due time becomes `due`.
#[tactic(auto, using(crate::proofs::Laws::tree_lent))]
pub fn put_due(state: &mut [u8], capacity: usize, i: usize, due: u64)
    requires capacity_in_bounds { 256 + 640 * capacity ≤ length state.old }
    requires i_lt_capacity { i < capacity }
    requires sound { Sound (view capacity state.old).tree capacity }
    ensures { DuePut capacity i due (view capacity state.old) (view capacity state.new) }
{
    let from = HEADER_BYTES + SLOT_BYTES * capacity;
    let end = from + QUEUE_BYTES * capacity;
    queue::set_due(&mut state[from..end], capacity, i, due);
}

/// A slot that is due by `limit`, if there is one.
#[tactic(auto, using(crate::proofs::Laws::tree_lent))]
pub fn next_due(state: &[u8], capacity: usize, limit: u64) -> Option<usize>
    requires capacity_in_bounds { 256 + 640 * capacity ≤ length state.now }
    requires capacity_nonzero { 0 < capacity }
    requires sound { Sound (view capacity state.now).tree capacity }
    ensures { NextDue capacity limit (view capacity state.now).tree result }
{
    let from = HEADER_BYTES + SLOT_BYTES * capacity;
    let end = from + QUEUE_BYTES * capacity;
    queue::first_due(&state[from..end], capacity, limit)
}

/// Whether the queue's tree is sound.
pub fn tree_is_sound(state: &[u8], capacity: usize) -> bool
    requires { 256 + 640 * capacity ≤ length state.now }
    ensures { Decides result (Sound (view capacity state.now).tree capacity) }
{
    let from = HEADER_BYTES + SLOT_BYTES * capacity;
    let end = from + QUEUE_BYTES * capacity;
    queue::is_sound(&state[from..end], capacity)
}

/// The queue names nothing.
pub fn clear_queue(state: &mut [u8], capacity: usize)
    requires capacity_in_bounds { 256 + 640 * capacity ≤ length state.old }
    requires capacity_nonzero { 0 < capacity }
    ensures { QueueCleared capacity (view capacity state.old) (view capacity state.new) }
{
    // Node 0 is spare and stays as it is.
    let from = HEADER_BYTES + SLOT_BYTES * capacity + NODE_BYTES;
    let end = from + (QUEUE_BYTES * capacity - NODE_BYTES);
    memory::fill(&mut state[from..end], 255);
}

/// No flow, and nothing in the header.
fn empty_regions(state: &mut [u8], capacity: usize)
    requires { 256 + 640 * capacity ≤ length state.old }
    ensures { NoFlow capacity (replicate 256 0) (view capacity state.old) (view capacity state.new) }
{
    let from = HEADER_BYTES + SLOT_BYTES * capacity;
    let end = from + QUEUE_BYTES * capacity;
    memory::fill(&mut state[..from], 0);
    memory::fill(&mut state[from..end], 255);
}

/// Puts all of the header's words.
#[tactic(auto, using(crate::proofs::HeaderLaws::header_put))]
fn store_header(state: &mut [u8], capacity: usize, header: Header)
    requires { 256 + 640 * capacity ≤ length state.old }
    ensures { view capacity state.new ≡ with_header (patch (view capacity state.old).header 0 (bytes_of (header_words header))) (view capacity state.old) }
{
    let words = [
        header.layout,
        header.capacity,
        header.timeout.0,
        header.lateness.0,
        header.resolution,
        header.clock.0,
    ];
    memory::store_words(state, 0, &words);
}

/// Memory long enough becomes a state with no flow: header, slots and queue as given.
pub fn clear_state(
    state: &mut [u8],
    capacity: usize,
    timeout: Nanos,
    lateness: Nanos,
    resolution: u64,
)
    requires { 256 + 640 * capacity ≤ length state.old }
    ensures { Cleared capacity (blank_header capacity timeout lateness resolution) (view capacity state.old) (view capacity state.new) }
{
    empty_regions(state, capacity);
    store_header(
        state,
        capacity,
        Header {
            layout: LAYOUT,
            capacity: capacity as u64,
            timeout,
            lateness,
            resolution,
            clock: Nanos(0),
        },
    );
}
