//! What was decided is done, or where the packet is refused the plan of its sweep is undone.
ghost use Rattle.std.specs.Prelude.{◌≡◌, take};
ghost use Rattle.slots.specs.Table.{slots};
ghost use Rattle.rules.specs.Engine.{written};
ghost use Rattle.state.specs.State.{slots_of};
ghost use Rattle.state.specs.Change.{last_free};
ghost use Rattle.act.specs.Settle.{Filled, SettleAsked, settled_slots};
ghost use Rattle.packet.specs.Doing.{taken_by, count_of, LeavingAsked, LeftHanded, Stepped, PerformAsked, Performed, refused_step, CarryAsked, CarriedOut};

use crate::Step;
use crate::size::verdict;
use act::settle::{end_ended, settle};
use decide::decide::{Decision, freed_by};
use flow::time::{EndReason, Idle, Nanos};
use forms::refusal::Refusal;
use hand::out::{hand_out, put_back};

// The answer to a refused packet.
fn refused(refusal: Refusal) -> Step
    ensures { result ≡ refused_step refusal }
{
    Step {
        refusal: Some(refusal),
        opened: false,
        records: 0,
        bytes: 0,
    }
}

// How many records step 4 finishes.
fn ending_count(reason: Option<EndReason>) -> usize
    ensures { result ≡ count_of reason }
{
    match reason {
        Some(_) => 1,
        None => 0,
    }
}

// The flows that leave are handed out, and behind them the one that step 1 ends; the answer is the bytes filled.
fn hand_leaving(
    state: &mut [u8],
    capacity: usize,
    idle: Idle,
    clock: Nanos,
    leaving: &[u16],
    n: usize,
    ended: Option<usize>,
    index: &mut [u32],
    free: &mut [u16],
    out: &mut [u8],
) -> usize
    requires { LeavingAsked capacity idle.timeout.0 idle.lateness.0 clock.0 state.old leaving.now n ended index.old free.old out.old }
    ensures { LeftHanded capacity idle.timeout.0 idle.lateness.0 clock.0 state.old state.new index.new free.new (take n leaving.now) ended out.old out.new result }
{
    let swept = hand_out(
        state,
        capacity,
        leaving,
        n,
        EndReason::IdleTimeout,
        index,
        free,
        out,
    );
    let rest = end_ended(
        state,
        capacity,
        idle.timeout,
        ended,
        index,
        free,
        &mut out[swept..],
    );
    swept + rest
}

// Steps 3 and 4, and the clock's new time; the answer is the bytes filled.
fn settle_clocked(
    state: &mut [u8],
    capacity: usize,
    timeout: Nanos,
    clock: Nanos,
    decision: Decision,
    bytes: &[u8],
    index: &mut [u32],
    free: &mut [u16],
    out: &mut [u8],
) -> usize
    requires { SettleAsked capacity timeout.0 decision.slot decision.name bytes.now decision.«record» decision.reason state.old index.old free.old out.old }
    ensures stepped { Stepped capacity timeout.0 clock.0 state.old state.new index.new free.new (settled_slots decision.slot decision.reason (last_free free.old) decision.name decision.«record» (slots_of (slots state.old capacity))) }
    ensures filled { Filled (written (taken_by decision)) out.old out.new result }
{
    let n = settle(
        state,
        capacity,
        timeout,
        decision.slot,
        decision.name,
        bytes,
        decision.record,
        decision.reason,
        index,
        free,
        out,
    );
    table::store_clock(state, capacity, clock);
    n
}

// The packet is taken.
fn perform(
    state: &mut [u8],
    capacity: usize,
    idle: Idle,
    clock: Nanos,
    leaving: &[u16],
    n: usize,
    decision: Decision,
    bytes: &[u8],
    index: &mut [u32],
    free: &mut [u16],
    out: &mut [u8],
) -> Step
    requires { PerformAsked capacity idle.timeout.0 idle.lateness.0 clock.0 state.old leaving.now n decision bytes.now index.old free.old out.old }
    ensures { Performed capacity idle.timeout.0 idle.lateness.0 clock.0 state.old (take n leaving.now) decision out.old result state.new out.new index.new free.new }
{
    let first = hand_leaving(
        state,
        capacity,
        idle,
        clock,
        leaving,
        n,
        decision.ended,
        index,
        free,
        out,
    );
    let rest = settle_clocked(
        state,
        capacity,
        idle.timeout,
        clock,
        decision,
        bytes,
        index,
        free,
        &mut out[first..],
    );
    Step {
        refusal: None,
        opened: !decision.slot.is_some(),
        records: n + freed_by(decision.ended) + ending_count(decision.reason),
        bytes: first + rest,
    }
}

// The packet is taken, or where it is refused the queue names the listed slots again.
pub(crate) fn carry_out(
    state: &mut [u8],
    capacity: usize,
    idle: Idle,
    clock: Nanos,
    leaving: &[u16],
    n: usize,
    decision: Decision,
    bytes: &[u8],
    index: &mut [u32],
    free: &mut [u16],
    out: &mut [u8],
) -> Step
    requires { CarryAsked capacity idle.timeout.0 idle.lateness.0 clock.0 state.old leaving.now n decision bytes.now index.old free.old }
    ensures { CarriedOut capacity idle.timeout.0 idle.lateness.0 clock.0 state.old (take n leaving.now) decision out.old result state.new out.new index.new free.new }
{
    match verdict(state, capacity, leaving, n, decision, out.len()) {
        Some(refusal) => {
            put_back(state, capacity, idle.timeout.0, leaving, n);
            refused(refusal)
        }
        None => perform(
            state, capacity, idle, clock, leaving, n, decision, bytes, index, free, out,
        ),
    }
}
