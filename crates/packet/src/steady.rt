//! The short way for a packet of a flow that is open and stays open, where nothing leaves.
ghost use Rattle.plain.specs.Plain.{key_read};
ghost use Rattle.packet.specs.Steady.{SteadyAsked, SteadyTaken};

use counting::count_at;
use decide::choose::choose_plain;
use decide::steady::stays_open;
use flow::record::PacketFacts;
use flow::time::Idle;
use plain::Plain;
use plan::sweep::nothing_due;
use sweeps::clock::clock_at;

/// A packet of a flow that is open and stays open, where nothing leaves: it is counted where the flow's record stands. Whether that was so.
pub fn take_steady(
    state: &mut [u8],
    capacity: usize,
    idle: Idle,
    facts: PacketFacts,
    batch: &[u8],
    from: usize,
    key: Plain,
    index: &[u32],
) -> bool
    requires { SteadyAsked state.old index.now capacity idle facts batch.now from key }
    ensures { SteadyTaken (record { facts = facts; key = key_read batch.now from }) state.old index.now capacity idle result state.new }
{
    let header = table::load_header(state);
    let clock = clock_at(idle.timeout, header.clock, facts.time);
    if !nothing_due(state, capacity, idle, clock) {
        return false;
    }
    let choice = choose_plain(state, capacity, index, idle, clock, facts, batch, from, key);
    let Some(i) = stays_open(state, choice, facts) else {
        return false;
    };
    count_at(state, capacity, i, choice.direction, facts);
    table::store_clock(state, capacity, clock);
    true
}
