//! A packet counted in a slot's words, where they lie.
#![tactic(auto)]

ghost use Rattle.std.specs.Prelude.{◌≡◌};
ghost use Rattle.memory.specs.Bytes.{patch, bytes_of};
ghost use Rattle.slots.specs.Table.{slot};
ghost use Rattle.words.specs.Words.{words_of};
ghost use Rattle.table.specs.View.{view, slot_of, with_slot};
ghost use Rattle.flow.specs.Counting.{counted_of};
ghost use Rattle.state.specs.Slot.{record_in};
ghost use Rattle.counting.specs.Count.{first_word, CountAsked};

use flow::record::{Direction, PacketFacts};
use words::counting::{counted_direction, counted_shared};

// The first word of a direction.
fn first_word(direction: Direction) -> usize
    ensures { result ≡ first_word direction }
{
    match direction {
        Direction::Forward => 11,
        Direction::Reverse => 24,
    }
}

/// Counts a packet on slot i's record, in the words of the slot: those that both directions share, and those of its own direction.
pub fn count_at(
    state: &mut [u8],
    capacity: usize,
    i: usize,
    direction: Direction,
    packet: PacketFacts,
)
    requires { CountAsked capacity i packet state.old }
    ensures { view capacity state.new ≡ with_slot i (patch (slot_of (view capacity state.old).table i) 80 (bytes_of (words_of (counted_of (record_in (slot state.old i)) direction packet)))) (view capacity state.old) }
{
    let mut shared = [0u64; 11];
    table::load_run(state, i, 0, &mut shared);
    let after = counted_shared(&shared, packet);
    table::store_run(state, capacity, i, 0, &after);
    let from = first_word(direction);
    let mut own = [0u64; 13];
    table::load_run(state, i, from, &mut own);
    let counted = counted_direction(&own, packet);
    table::store_run(state, capacity, i, from, &counted);
}
