//! A list of slots: the bytes their records need, the queue that names them again, and their records handed out.
ghost use Rattle.std.specs.Prelude.{◌≡◌, map, ◌≤◌, length, take};
ghost use Rattle.slots.specs.Table.{slot};
ghost use Rattle.table.specs.View.{view};
ghost use Rattle.wire.specs.RecordForm.{record_bytes};
ghost use Rattle.rules.specs.Rules.{finish_or, sizes};
ghost use Rattle.rules.specs.Engine.{engine};
ghost use Rattle.state.specs.Slot.{flow_in};
ghost use Rattle.state.specs.Ready.{Ready};
ghost use Rattle.state.specs.Names.{flows_of};
ghost use Rattle.hand.specs.Slot.{flow_as};
ghost use Rattle.hand.specs.Act.{Listed, Asked, PutBack, Wrote, CloseAsked, Closed, OneAsked, HandAsked, Handed};

use crate::slot::finished_at;
use flow::time::EndReason;
use key::key::FlowKey;
use wire::record::{Flow, record_len, write_record_at};

/// The bytes that the records of the list need.
pub fn sizes_of(state: &[u8], capacity: usize, leaving: &[u16], n: usize, other: EndReason) -> usize
    requires { Listed capacity state.now leaving.now n }
    ensures { result ≡ sizes engine (map (finish_or engine other) (flows_of (view capacity state.now).table (take n leaving.now))) }
{
    let mut sum = 0;
    for &slot in &leaving[..n] {
        sum += record_len(finished_at(state, slot as usize, other));
    }
    sum
}

/// The queue names the slots of the list again.
pub fn put_back(state: &mut [u8], capacity: usize, timeout: u64, leaving: &[u16], n: usize)
    requires { Asked capacity timeout state.old leaving.now n }
    ensures { PutBack capacity timeout (view capacity state.old) (view capacity state.new) }
{
    for &slot in &leaving[..n] {
        let i = slot as usize;
        let due = table::real_due(state, i, timeout);
        table::put_due(state, capacity, i, due);
    }
}

/// The flow's record at the front of `out`; the answer is its length.
pub fn write_flow(out: &mut [u8], flow: Flow) -> usize
    requires { length (record_bytes flow) ≤ length out.old }
    ensures { Wrote flow out.old out.new result }
{
    // There is room for it, so a place behind it is always told.
    write_record_at(out, Some(0), flow).unwrap_or(0)
}

/// Gives slot `i` back: its key leaves the index, and the slot goes to the free ones.
pub fn close_slot(
    state: &mut [u8],
    capacity: usize,
    i: usize,
    key: FlowKey,
    index: &mut [u32],
    free: &mut [u16],
)
    requires { CloseAsked capacity i key state.old index.old free.old }
    ensures { Closed capacity i state.old state.new index.new free.new }
{
    index::forget(index, i, key.shard(524_288));
    table::free(state, capacity, i);
    state::free::push(free, i);
}

/// Hands slot `i`'s flow out: its record at the front of `out`, whose length is the answer, and the slot given back.
pub fn hand_one(
    state: &mut [u8],
    capacity: usize,
    i: usize,
    other: EndReason,
    index: &mut [u32],
    free: &mut [u16],
    out: &mut [u8],
) -> usize
    requires { OneAsked capacity i other state.old index.old free.old out.old }
    ensures closed { Closed capacity i state.old state.new index.new free.new }
    ensures wrote { Wrote (flow_as (finish_or engine other (flow_in (slot state.old i)))) out.old out.new result }
{
    // The record is read and written before the slot is given back.
    let flow = finished_at(state, i, other);
    let n = write_flow(out, flow);
    close_slot(state, capacity, i, flow.key, index, free);
    n
}

/// Hands the flows of the list out, each behind the one before; the answer is the bytes filled.
pub fn hand_out(
    state: &mut [u8],
    capacity: usize,
    leaving: &[u16],
    n: usize,
    other: EndReason,
    index: &mut [u32],
    free: &mut [u16],
    out: &mut [u8],
) -> usize
    requires { HandAsked capacity other state.old leaving.now n index.old free.old out.old }
    ensures handed { Handed capacity other (view capacity state.old) (view capacity state.new) (take n leaving.now) out.old out.new result }
    ensures ready { Ready state.new capacity index.new free.new }
{
    let mut used = 0;
    for &slot in &leaving[..n] {
        let i = slot as usize;
        used += hand_one(state, capacity, i, other, index, free, &mut out[used..]);
    }
    used
}
