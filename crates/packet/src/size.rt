//! Whether a packet is refused: the decision's refusal, or Room where the records that it finishes do not fit into the output.
ghost use Rattle.std.specs.Prelude.{◌≡◌, ◌+◌, leb, take};
ghost use Rattle.forms.specs.Refusals.{stop_number};
ghost use Rattle.rules.specs.Rules.{ended_for, sizes};
ghost use Rattle.rules.specs.Engine.{engine};
ghost use Rattle.decide.specs.Settle.{SlotSound};
ghost use Rattle.act.specs.Keep.{flow_under};
ghost use Rattle.packet.specs.Doing.{ended_by, verdict_on, VerdictAsked};

use decide::decide::Decision;
use flow::record::FlowRecord;
use flow::time::EndReason;
use forms::refusal::Refusal;
use hand::out::sizes_of;
use hand::slot::{finished, finished_at};
use key::key::FlowKey;
use wire::record::record_len;

// The bytes of the record that step 1 finishes.
fn ended_size(state: &[u8], ended: Option<usize>) -> usize
    requires { SlotSound state.now ended }
    ensures { result ≡ sizes engine (ended_by state.now ended) }
{
    match ended {
        Some(i) => record_len(finished_at(state, i, EndReason::Fin)),
        None => 0,
    }
}

// The bytes of the record that step 4 finishes.
#[tactic(auto, using(crate::proofs::Sizes::ending_measured, crate::proofs::Sizes::nothing_ends))]
fn ending_size(name: FlowKey, record: FlowRecord, reason: Option<EndReason>) -> usize
    ensures { result ≡ sizes engine (ended_for engine reason (flow_under name «record»)) }
{
    match reason {
        Some(why) => record_len(finished(name, record, why)),
        None => 0,
    }
}

// Whether three sizes together fit into the room; no sum is made, so that none can wrap.
#[tactic(auto, using(crate::proofs::Sizes::first_over, crate::proofs::Sizes::second_over, crate::proofs::Sizes::third_tells))]
fn fits(room: usize, first: usize, second: usize, third: usize) -> bool
    ensures { result ≡ leb (first + (second + third)) room }
{
    if room < first {
        return false;
    }
    let left = room - first;
    if left < second {
        return false;
    }
    third <= left - second
}

// The packet's refusal, if there is one. Only a packet that is not refused yet has its records measured.
pub(crate) fn verdict(
    state: &[u8],
    capacity: usize,
    leaving: &[u16],
    n: usize,
    decision: Decision,
    room: usize,
) -> Option<Refusal>
    requires { VerdictAsked capacity state.now leaving.now n decision }
    ensures { stop_number result ≡ verdict_on state.now capacity (take n leaving.now) decision room }
{
    if let Some(refusal) = decision.refusal {
        return Some(refusal);
    }
    let first = sizes_of(state, capacity, leaving, n, EndReason::IdleTimeout);
    let second = ended_size(state, decision.ended);
    let third = ending_size(decision.name, decision.record, decision.reason);
    if fits(room, first, second, third) {
        return None;
    }
    Some(Refusal::Room)
}
