//! Steps 1 and 2: the flow that ends without the packet, and the flow that takes it.
ghost use Rattle.std.specs.Prelude.{◌≡◌, ◌+◌, ◌*◌, ◌≤◌, eqb, length};
ghost use Rattle.slots.specs.Table.{slot};
ghost use Rattle.flow.specs.Counting.{mask_of};
ghost use Rattle.flow.specs.Summary.{syn, bit_of};
ghost use Rattle.key.specs.Key.{reversed_key};
ghost use Rattle.key.specs.KeyTheorems.{KeyInRange};
ghost use Rattle.plain.specs.Plain.{key_read};
ghost use Rattle.rules.specs.Engine.{key_bytes, both_fins};
ghost use Rattle.state.specs.Slot.{record_in};
ghost use Rattle.decide.specs.Search.{InState, SearchAsked};
ghost use Rattle.decide.specs.Choose.{if_closed_at, first_found, unless_ended, reused_at, taken_by, choice_at, TurnedIf};
ghost use Rattle.decide.specs.Decide.{DecideAsked, Chosen};
ghost use Rattle.decide.specs.PlainKey.{TurnedAsked, PlainAsked};

use crate::search::{find_staying, find_turned, find_turned_plain};
use crate::steady::word;
use flow::record::{Direction, PacketFacts, mask_of};
use flow::time::{Idle, Nanos};
use key::key::FlowKey;
use plain::Plain;
use wire::packet::Packet;

// The word of a record that counts its forward FINs.
const FORWARD_FINS: usize = 15;

// The word that counts its reverse FINs.
const REVERSE_FINS: usize = 28;

/// The flow that step 1 ends, and the one that takes the packet, in that direction; no slot where a flow opens.
#[derive(Clone, Copy)]
pub struct Choice {
    pub ended: Option<usize>,
    pub slot: Option<usize>,
    pub direction: Direction,
}

// Whether SYN is set.
fn has_syn(flags: Option<u16>) -> bool
    ensures { result ≡ eqb (bit_of syn (mask_of flags)) 1 }
{
    mask_of(flags) / 2 % 2 == 1
}

// Whether slot i's flow has seen both FINs.
#[tactic(auto, using(crate::proofs::Ways::fins_told))]
pub(crate) fn closed_at(state: &[u8], i: usize) -> bool
    requires { 256 + 624 * i + 624 ≤ length state.now }
    ensures { result ≡ both_fins (record_in (slot state.now i)) }
{
    (0 < word(state, i, FORWARD_FINS)) & (0 < word(state, i, REVERSE_FINS))
}

// The slot, if its flow has seen both FINs.
fn if_closed(state: &[u8], found: Option<usize>) -> Option<usize>
    requires { InState state.now found }
    ensures { result ≡ if_closed_at state.now found }
{
    match found {
        Some(i) => {
            if closed_at(state, i) {
                return Some(i);
            }
            None
        }
        None => None,
    }
}

// The first of the two that is there.
#[tactic(auto, using(crate::proofs::Ways::first_there))]
fn first_found(first: Option<usize>, second: Option<usize>) -> Option<usize>
    ensures { result ≡ first_found first second }
{
    match first {
        Some(i) => Some(i),
        None => second,
    }
}

// Step 1: if SYN is set, the flow under the packet's key that has seen both FINs, or else the one under the reversed key.
#[tactic(auto, using(crate::proofs::Ways::syn_set))]
fn reused(state: &[u8], syn: bool, own: Option<usize>, turned: Option<usize>) -> Option<usize>
    requires in_state { InState state.now own }
    requires in_state_2 { InState state.now turned }
    ensures { result ≡ reused_at state.now syn own turned }
{
    if syn {
        return first_found(if_closed(state, own), if_closed(state, turned));
    }
    None
}

// The slot, unless it is the one that step 1 ends.
#[tactic(auto, using(crate::proofs::Ways::unless_same, crate::proofs::Ways::unless_other, crate::proofs::Ways::unless_none))]
fn unless_ended(found: Option<usize>, ended: Option<usize>) -> Option<usize>
    ensures { result ≡ unless_ended found ended }
{
    match found {
        Some(i) => match ended {
            Some(j) => {
                if i == j {
                    return None;
                }
                Some(i)
            }
            None => Some(i),
        },
        None => None,
    }
}

// Step 2: the flow under the packet's key takes it, or else the one under the reversed key, unless the endpoints are one-way.
#[tactic(auto, using(crate::proofs::Ways::own_takes, crate::proofs::Ways::turned_takes, crate::proofs::Ways::none_takes))]
fn taken_by(
    ended: Option<usize>,
    own: Option<usize>,
    two_way: bool,
    turned: Option<usize>,
) -> Choice
    ensures { result ≡ taken_by ended own two_way turned }
{
    if own.is_some() {
        return Choice {
            ended,
            slot: own,
            direction: Direction::Forward,
        };
    }
    if two_way & turned.is_some() {
        return Choice {
            ended,
            slot: turned,
            direction: Direction::Reverse,
        };
    }
    Choice {
        ended,
        slot: None,
        direction: Direction::Forward,
    }
}

// Both steps, from what was found under the key and under the reversed key.
#[tactic(auto, using(crate::proofs::Ways::choice_made))]
fn choice_of(
    state: &[u8],
    syn: bool,
    own: Option<usize>,
    two_way: bool,
    turned: Option<usize>,
) -> Choice
    requires in_state { InState state.now own }
    requires in_state_2 { InState state.now turned }
    ensures { result ≡ choice_at state.now syn own two_way turned }
{
    let ended = reused(state, syn, own, turned);
    taken_by(
        ended,
        unless_ended(own, ended),
        two_way,
        unless_ended(turned, ended),
    )
}

// The search under the reversed key, where it is needed.
#[tactic(auto, using(crate::proofs::Ways::turned_needed, crate::proofs::Ways::turned_unneeded))]
fn turned_if(
    needed: bool,
    state: &[u8],
    capacity: usize,
    index: &[u32],
    idle: Idle,
    clock: Nanos,
    key: FlowKey,
    hash: u64,
) -> Option<usize>
    requires search_asked { SearchAsked state.now capacity index.now (key_bytes key) hash }
    requires key_in_range { KeyInRange key }
    ensures { TurnedIf needed state.now capacity idle.timeout.0 idle.lateness.0 clock.0 (key_bytes (reversed_key key)) result }
{
    if needed {
        return find_turned(state, capacity, index, idle, clock, key, hash);
    }
    None
}

// The flow that step 1 ends, and the flow that takes the packet.
pub(crate) fn choose(
    state: &[u8],
    capacity: usize,
    index: &[u32],
    idle: Idle,
    clock: Nanos,
    packet: Packet,
    bytes: &[u8],
) -> Choice
    requires { DecideAsked state.now capacity index.now packet bytes.now }
    ensures { Chosen state.now capacity idle.timeout.0 idle.lateness.0 clock.0 packet result.ended result.slot result.direction }
{
    let key = packet.key;
    let hash = key.shard(524_288);
    let two_way = key.endpoints.has_reverse_direction();
    let syn = has_syn(packet.facts.tcp_flags);
    let own = find_staying(state, capacity, index, idle, clock, bytes, hash);
    // The reversed key matters to step 1 only with SYN, and to step 2 only where the key has no flow of its own.
    let needed = syn | (two_way & !own.is_some());
    let turned = turned_if(needed, state, capacity, index, idle, clock, key, hash);
    choice_of(state, syn, own, two_way, turned)
}

// The search under the reverse of a plain key, where it is needed.
#[tactic(auto, using(crate::proofs::Ways::turned_needed, crate::proofs::Ways::turned_unneeded))]
fn turned_plain_if(
    needed: bool,
    state: &[u8],
    capacity: usize,
    index: &[u32],
    idle: Idle,
    clock: Nanos,
    batch: &[u8],
    from: usize,
    key: Plain,
) -> Option<usize>
    requires { TurnedAsked state.now capacity index.now batch.now from key }
    ensures { TurnedIf needed state.now capacity idle.timeout.0 idle.lateness.0 clock.0 (key_bytes (reversed_key (key_read batch.now from))) result }
{
    if needed {
        return find_turned_plain(state, capacity, index, idle, clock, batch, from, key);
    }
    None
}

/// Steps 1 and 2 for a packet with a plain key, which is looked for by its bytes where they lie.
pub fn choose_plain(
    state: &[u8],
    capacity: usize,
    index: &[u32],
    idle: Idle,
    clock: Nanos,
    facts: PacketFacts,
    batch: &[u8],
    from: usize,
    key: Plain,
) -> Choice
    requires { PlainAsked state.now capacity index.now facts batch.now from key }
    ensures { Chosen state.now capacity idle.timeout.0 idle.lateness.0 clock.0 (record { facts = facts; key = key_read batch.now from }) result.ended result.slot result.direction }
{
    let syn = has_syn(facts.tcp_flags);
    let own = find_staying(
        state,
        capacity,
        index,
        idle,
        clock,
        &batch[from..key.next],
        key.hash,
    );
    // As in `choose`: the reversed key matters to step 1 only with SYN, and to step 2 only where the key has no flow of its own.
    let needed = syn | !own.is_some();
    let turned = turned_plain_if(
        needed, state, capacity, index, idle, clock, batch, from, key,
    );
    choice_of(state, syn, own, true, turned)
}
