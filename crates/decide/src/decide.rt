//! What one packet will do: steps 1 to 4, and whether it is refused as Full or Spent. Nothing is changed.
ghost use Rattle.std.specs.Prelude.{◌≡◌, ◌+◌, ◌≤◌, eqb, length, is_some};
ghost use Rattle.slots.specs.Table.{slots};
ghost use Rattle.forms.specs.Refusals.{stop_number};
ghost use Rattle.flow.specs.Counting.{mask_of};
ghost use Rattle.flow.specs.Summary.{rst, bit_of};
ghost use Rattle.rules.specs.Engine.{engine};
ghost use Rattle.rules.specs.Slots.{occupied};
ghost use Rattle.decide.specs.Decide.{staying_slots, DecideAsked, Decided};
ghost use Rattle.decide.specs.Settle.{SlotSound, record_before, RoomUnless, record_after, ending_by, name_by, freed_by, refusal_by, SettleAsked, Settled};

use crate::choose::{Choice, choose};
use flow::record::{Direction, FlowRecord, PacketFacts, counted_on, has_room, mask_of};
use flow::time::{EndReason, Idle, Nanos, TimeResolution};
use forms::refusal::Refusal;
use hand::slot::{both_fins, record_at};
use key::key::FlowKey;
use wire::packet::Packet;

/// The refusal, if there is one; the slot of the flow that step 1 ends; the slot of the flow that takes the packet, none where one
/// opens; that flow's name, its record with the packet counted, and the reason if it ends.
#[derive(Clone, Copy)]
pub struct Decision {
    pub refusal: Option<Refusal>,
    pub ended: Option<usize>,
    pub slot: Option<usize>,
    pub name: FlowKey,
    pub record: FlowRecord,
    pub reason: Option<EndReason>,
}

// Whether RST is set.
pub(crate) fn has_rst(flags: Option<u16>) -> bool
    ensures { result ≡ eqb (bit_of rst (mask_of flags)) 1 }
{
    mask_of(flags) / 4 % 2 == 1
}

// The record that takes the packet, before it: the slot's, or one that has just been opened.
fn record_before(
    state: &[u8],
    slot: Option<usize>,
    resolution: TimeResolution,
    packet: Packet,
) -> FlowRecord
    requires { SlotSound state.now slot }
    ensures { result ≡ record_before state.now slot resolution packet }
{
    match slot {
        Some(i) => record_at(state, i),
        None => FlowRecord::open(resolution, packet.key.protocol, packet.facts),
    }
}

// Step 3: the record with the packet counted, unless it is refused.
fn record_after(
    refusal: Option<Refusal>,
    before: FlowRecord,
    direction: Direction,
    facts: PacketFacts,
) -> FlowRecord
    requires { RoomUnless (stop_number refusal) before facts }
    ensures { result ≡ record_after (stop_number refusal) before direction facts }
{
    match refusal {
        None => counted_on(before, direction, facts),
        Some(_) => before,
    }
}

// Step 4: nothing else ends where step 1 ended a flow; RST ends the flow that takes the packet; else it ends if both FINs had been
// seen before.
#[tactic(auto, using(crate::proofs::Settling::ends_rst, crate::proofs::Settling::ends_fin))]
fn ending(ended: Option<usize>, rst: bool, was_closed: bool) -> Option<EndReason>
    ensures { result ≡ ending_by (is_some ended) rst was_closed }
{
    if ended.is_some() {
        return None;
    }
    if rst {
        return Some(EndReason::Rst);
    }
    if was_closed {
        return Some(EndReason::Fin);
    }
    None
}

// The key of the flow that takes the packet.
#[tactic(auto, using(crate::proofs::Settling::named_turned))]
fn name_of(key: FlowKey, direction: Direction) -> FlowKey
    ensures { result ≡ name_by key direction }
{
    match direction {
        Direction::Forward => key,
        Direction::Reverse => key.reversed(),
    }
}

/// How many slots step 1 frees, and how many records it finishes.
pub fn freed_by(ended: Option<usize>) -> usize
    ensures { result ≡ freed_by ended }
{
    match ended {
        Some(_) => 1,
        None => 0,
    }
}

// Full where a flow would open and no slot is free after the sweep and step 1; Spent where the record has no room for the packet.
#[tactic(auto, using(crate::proofs::Settling::room_fits, crate::proofs::Settling::refused_full, crate::proofs::Settling::not_refused, crate::proofs::Settling::refused_spent))]
fn refusal_of(room: usize, ended: Option<usize>, slot: Option<usize>, fits: bool) -> Option<Refusal>
    requires { room ≤ 4096 }
    ensures { stop_number result ≡ refusal_by room ended slot fits }
{
    let full = slot.is_none() & (room + freed_by(ended) == 0);
    if full {
        return Some(Refusal::Full);
    }
    if fits { None } else { Some(Refusal::Spent) }
}

// Steps 3 and 4, and the refusals, when steps 1 and 2 have chosen.
fn settle(
    state: &[u8],
    room: usize,
    resolution: TimeResolution,
    packet: Packet,
    choice: Choice,
) -> Decision
    requires { SettleAsked state.now room packet choice.slot }
    ensures { Settled state.now room resolution packet choice result }
{
    let Choice {
        ended,
        slot,
        direction,
    } = choice;
    let facts = packet.facts;
    let before = record_before(state, slot, resolution, packet);
    let refusal = refusal_of(room, ended, slot, has_room(before, facts));
    Decision {
        refusal,
        ended,
        slot,
        name: name_of(packet.key, direction),
        record: record_after(refusal, before, direction, facts),
        reason: ending(ended, has_rst(facts.tcp_flags), both_fins(before)),
    }
}

/// What the packet will do, where there is room for `room` flows more once its sweep is done.
pub fn decide(
    state: &[u8],
    capacity: usize,
    index: &[u32],
    room: usize,
    idle: Idle,
    clock: Nanos,
    resolution: TimeResolution,
    packet: Packet,
    bytes: &[u8],
) -> Decision
    requires decide_asked { DecideAsked state.now capacity index.now packet bytes.now }
    requires room_len { length (occupied engine (staying_slots idle.timeout.0 idle.lateness.0 clock.0 (slots state.now capacity))) + room ≡ capacity }
    ensures { Decided (record { T = idle.timeout.0; L = idle.lateness.0; resolution = resolution; capacity = capacity }) state.now clock.0 packet result }
{
    let choice = choose(state, capacity, index, idle, clock, packet, bytes);
    settle(state, room, resolution, packet, choice)
}
