//! A packet whose flow is open and stays open, seen by single words of the slot: no record is made of them.
ghost use Rattle.std.specs.Prelude.{◌≡◌, ◌+◌, ◌*◌, ◌≤◌, ◌<◌, length, get_or};
ghost use Rattle.slots.specs.Table.{slot};
ghost use Rattle.flow.specs.Counting.{has_room};
ghost use Rattle.state.specs.Slot.{words_in, record_in};
ghost use Rattle.decide.specs.Search.{InState};
ghost use Rattle.decide.specs.Steady.{stays_at, stays_open};

use crate::choose::{Choice, closed_at};
use crate::decide::has_rst;
use flow::record::PacketFacts;
use flow::sums::{fits_three, fits_two};
use slots::{HEADER_BYTES, SLOT_BYTES};

// Where the record begins in a slot.
const RECORD_AT: usize = 80;

// Word k of slot i's record.
#[tactic(auto, using(crate::proofs::StaysOpen::word_told))]
pub(crate) fn word(state: &[u8], i: usize, k: usize) -> u64
    requires i_in_bounds { 256 + 624 * i + 624 ≤ length state.now }
    requires k_bound { k < 37 }
    ensures { result ≡ get_or (words_in (slot state.now i)) k 0 }
{
    memory::load_u64(state, HEADER_BYTES + SLOT_BYTES * i + RECORD_AT + 8 * k)
}

// Whether slot i's record has room for the packet: packets and octets of both directions together, and captured octets.
#[tactic(auto, using(crate::proofs::StaysOpen::room_told))]
fn room_at(state: &[u8], i: usize, facts: PacketFacts) -> bool
    requires { 256 + 624 * i + 624 ≤ length state.now }
    ensures { result ≡ has_room (record_in (slot state.now i)) facts }
{
    fits_three(word(state, i, 11), word(state, i, 24), 1)
        & fits_three(
            word(state, i, 12),
            word(state, i, 25),
            facts.frame_octets as u64,
        )
        & fits_two(word(state, i, 9), facts.captured_octets as u64)
}

// Whether slot i's flow has room for the packet and stays open with it: step 4 ends it by RST, or where both FINs had been seen.
#[tactic(auto, using(crate::proofs::StaysOpen::stays_told))]
fn stays_at(state: &[u8], i: usize, facts: PacketFacts) -> bool
    requires { 256 + 624 * i + 624 ≤ length state.now }
    ensures { result ≡ stays_at state.now facts i }
{
    let rst = has_rst(facts.tcp_flags);
    let closed = closed_at(state, i);
    let room = room_at(state, i, facts);
    !rst & !closed & room
}

/// The slot of the flow that takes the packet, if step 1 ends none and that flow is open, has room for the packet and stays open.
#[tactic(auto, using(crate::proofs::StaysOpen::one_ends, crate::proofs::StaysOpen::one_opens, crate::proofs::StaysOpen::in_state, crate::proofs::StaysOpen::stays_there, crate::proofs::StaysOpen::stays_not))]
pub fn stays_open(state: &[u8], choice: Choice, facts: PacketFacts) -> Option<usize>
    requires { InState state.now choice.slot }
    ensures { result ≡ stays_open state.now facts choice.ended choice.slot }
{
    if choice.ended.is_some() {
        return None;
    }
    let i = choice.slot?;
    if stays_at(state, i, facts) {
        return Some(i);
    }
    None
}
