//! The search for a flow that stays: one that leaves by the packet's sweep counts as missing.
ghost use Rattle.std.specs.Prelude.{◌≡◌, ◌+◌, ◌*◌, ◌≤◌, length};
ghost use Rattle.slots.specs.Table.{slot};
ghost use Rattle.key.specs.Key.{reversed_key};
ghost use Rattle.key.specs.KeyTheorems.{KeyInRange};
ghost use Rattle.plain.specs.Plain.{key_read};
ghost use Rattle.rules.specs.Engine.{key_bytes};
ghost use Rattle.state.specs.Slot.{flow_in};
ghost use Rattle.plan.specs.Plan.{leaves_by};
ghost use Rattle.decide.specs.Search.{InState, if_staying, SearchAsked, FoundStaying};
ghost use Rattle.decide.specs.PlainKey.{TurnedAsked};

use flow::time::{Idle, Nanos};
use key::key::FlowKey;
use plain::{Plain, write_turned};
use state::keys::{front, write_reversed};

// Whether slot i's flow leaves by the clock: its end + T + L is at most W, and there is a timeout.
#[tactic(auto, using(crate::proofs::Staying::leaves_told))]
fn leaves(state: &[u8], i: usize, idle: Idle, clock: Nanos) -> bool
    requires { 256 + 624 * i + 624 ≤ length state.now }
    ensures { result ≡ leaves_by idle.timeout.0 idle.lateness.0 clock.0 (flow_in (slot state.now i)) }
{
    rules::leaves(
        table::end_of(state, i),
        idle.timeout.0,
        idle.lateness.0,
        clock.0,
    )
}

// The slot, unless its flow leaves.
fn if_staying(state: &[u8], found: Option<usize>, idle: Idle, clock: Nanos) -> Option<usize>
    requires { InState state.now found }
    ensures { result ≡ if_staying state.now idle.timeout.0 idle.lateness.0 clock.0 found }
{
    match found {
        Some(i) => {
            if leaves(state, i, idle, clock) {
                return None;
            }
            Some(i)
        }
        None => None,
    }
}

// The slot of the flow under these bytes that stays.
pub(crate) fn find_staying(
    state: &[u8],
    capacity: usize,
    index: &[u32],
    idle: Idle,
    clock: Nanos,
    bytes: &[u8],
    hash: u64,
) -> Option<usize>
    requires { SearchAsked state.now capacity index.now bytes.now hash }
    ensures { FoundStaying state.now capacity idle.timeout.0 idle.lateness.0 clock.0 bytes.now result }
{
    let found = index::find(index, state, capacity, bytes, hash);
    if_staying(state, found, idle, clock)
}

// The slot of the flow under the reversed key that stays.
#[tactic(auto, using(state::specs::SlotTest::front_fits, crate::proofs::Staying::turned_asked, crate::proofs::Staying::turned_told))]
pub(crate) fn find_turned(
    state: &[u8],
    capacity: usize,
    index: &[u32],
    idle: Idle,
    clock: Nanos,
    key: FlowKey,
    hash: u64,
) -> Option<usize>
    requires search_asked { SearchAsked state.now capacity index.now (key_bytes key) hash }
    requires key_in_range { KeyInRange key }
    ensures { FoundStaying state.now capacity idle.timeout.0 idle.lateness.0 clock.0 (key_bytes (reversed_key key)) result }
{
    let mut bytes = [0u8; 128];
    let n = write_reversed(&mut bytes, key);
    find_staying(state, capacity, index, idle, clock, front(&bytes, n), hash)
}

// The slot of the flow under the reverse of a plain key that stays. 64 bytes hold every plain key.
pub(crate) fn find_turned_plain(
    state: &[u8],
    capacity: usize,
    index: &[u32],
    idle: Idle,
    clock: Nanos,
    batch: &[u8],
    from: usize,
    key: Plain,
) -> Option<usize>
    requires { TurnedAsked state.now capacity index.now batch.now from key }
    ensures { FoundStaying state.now capacity idle.timeout.0 idle.lateness.0 clock.0 (key_bytes (reversed_key (key_read batch.now from))) result }
{
    let mut bytes = [0u8; 64];
    write_turned(&mut bytes, batch, from, key);
    find_staying(
        state,
        capacity,
        index,
        idle,
        clock,
        front(&bytes, key.next - from),
        key.hash,
    )
}
