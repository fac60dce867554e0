//! The flows that one packet ends, and the one that takes it.
ghost use Rattle.slots.specs.Table.{slots};
ghost use Rattle.state.specs.State.{slots_of};
ghost use Rattle.state.specs.Change.{last_free};
ghost use Rattle.flow.specs.declared.time.EndReason.TheVariants.{Fin};
ghost use Rattle.rules.specs.Rules as rules;
ghost use Rattle.rules.specs.Rules.{ended_for};
ghost use Rattle.rules.specs.Engine.{engine, written};
ghost use Rattle.hand.specs.Acting.{Acted, at, emptied_at};
ghost use Rattle.act.specs.Keep.{flow_under};
ghost use Rattle.act.specs.Settle.{Filled, EndAsked, LeaveAsked, SettleAsked, settled_slots};

use crate::keep::keep;
use flow::record::FlowRecord;
use flow::time::{EndReason, Nanos};
use hand::out::{close_slot, hand_one, write_flow};
use hand::slot::finished;
use key::key::FlowKey;

/// The flow that step 1 ends, if there is one, is handed out with Fin.
pub fn end_ended(
    state: &mut [u8],
    capacity: usize,
    timeout: Nanos,
    ended: Option<usize>,
    index: &mut [u32],
    free: &mut [u16],
    out: &mut [u8],
) -> usize
    requires { EndAsked capacity timeout.0 ended state.old index.old free.old out.old }
    ensures acted { Acted capacity timeout.0 state.old state.new index.new free.new (emptied_at ended (slots_of (slots state.old capacity))) }
    ensures filled { Filled (written (rules.ended engine Fin (at (slots_of (slots state.old capacity)) ended))) out.old out.new result }
{
    match ended {
        Some(i) => {
            table::put_due(state, capacity, i, queue::NEVER);
            hand_one(state, capacity, i, EndReason::Fin, index, free, out)
        }
        None => 0,
    }
}

// The flow's slot, if it has one, is given back, and the queue names it no more.
fn leave(
    state: &mut [u8],
    capacity: usize,
    timeout: Nanos,
    slot: Option<usize>,
    name: FlowKey,
    index: &mut [u32],
    free: &mut [u16],
)
    requires { LeaveAsked capacity timeout.0 slot name state.old index.old free.old }
    ensures { Acted capacity timeout.0 state.old state.new index.new free.new (emptied_at slot (slots_of (slots state.old capacity))) }
{
    match slot {
        Some(i) => {
            table::put_due(state, capacity, i, queue::NEVER);
            close_slot(state, capacity, i, name, index, free);
        }
        None => (),
    }
}

/// Steps 3 and 4: the taker's flow is kept with its record, or handed out with the reason.
pub fn settle(
    state: &mut [u8],
    capacity: usize,
    timeout: Nanos,
    slot: Option<usize>,
    name: FlowKey,
    bytes: &[u8],
    record: FlowRecord,
    reason: Option<EndReason>,
    index: &mut [u32],
    free: &mut [u16],
    out: &mut [u8],
) -> usize
    requires { SettleAsked capacity timeout.0 slot name bytes.now «record» reason state.old index.old free.old out.old }
    ensures acted { Acted capacity timeout.0 state.old state.new index.new free.new (settled_slots slot reason (last_free free.old) name «record» (slots_of (slots state.old capacity))) }
    ensures filled { Filled (written (ended_for engine reason (flow_under name «record»))) out.old out.new result }
{
    match reason {
        None => {
            keep(
                state, capacity, timeout, slot, name, bytes, record, index, free,
            );
            0
        }
        Some(r) => {
            let n = write_flow(out, finished(name, record, r));
            leave(state, capacity, timeout, slot, name, index, free);
            n
        }
    }
}
