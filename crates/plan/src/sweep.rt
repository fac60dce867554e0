//! A sweep's plan: the slots whose flows leave by the clock go from the queue to the list.
ghost use Rattle.std.specs.Prelude.{◌≡◌, ◌+◌, ◌≤◌, ◌<◌, length, take};
ghost use Rattle.memory.specs.Decides.{Decides};
ghost use Rattle.table.specs.View.{view};
ghost use Rattle.plan.specs.Plan.{leaves_by, PlanAsked, PlanMade, DueAsked, NothingDue};
ghost use Rattle.plan.specs.Steps.{rank_at, PlaceAsked, PlaceFor, put_at, goes, OneAsked, Dealt, SweepAsked};

use crate::order::at_most;
use flow::time::{Idle, Nanos};

// Where slot i belongs in the first n of the list, looked for from the back.
fn place_for(state: &[u8], leaving: &[u16], n: usize, i: usize) -> usize
    requires { PlaceAsked state.now leaving.now n i }
    ensures { PlaceFor (rank_at state.now) (take n leaving.now) i result }
{
    let last = leaving[..n]
        .iter()
        .rposition(|&j| !at_most(state, i, j as usize));
    last.map_or(0, |k| k + 1)
}

// Slot i goes into place k of the first n, and those from there on move up by one.
#[tactic(auto, using(crate::proofs::Lists::shifted))]
pub(crate) fn put_in(leaving: &mut [u16], n: usize, k: usize, i: u16)
    requires n_in_bounds { n < length leaving.old }
    requires k_le_n { k ≤ n }
    ensures { take (n + 1) leaving.new ≡ put_at k i (take n leaving.old) }
{
    leaving.copy_within(k..n, k + 1);
    leaving[k] = i;
}

// Slot i, whose entry is due: it goes back to its due time where the entry is another, even if that is due too; else it goes to the
// list. So slots reach the list in order of end, and only those with the same end are compared by key.
fn plan_one(
    state: &mut [u8],
    capacity: usize,
    timeout: u64,
    leaving: &mut [u16],
    n: usize,
    i: usize,
) -> usize
    requires { OneAsked capacity state.old leaving.old n i }
    ensures { Dealt capacity timeout i n state.old state.new leaving.old leaving.new result }
{
    let due = table::due_of(state, capacity, i);
    let real = table::real_due(state, i, timeout);
    if due != real {
        table::put_due(state, capacity, i, real);
        return n;
    }
    let k = place_for(state, leaving, n, i);
    put_in(leaving, n, k, i as u16);
    table::put_due(state, capacity, i, queue::NEVER);
    n + 1
}

// Which flows leave by the limit: their slots go into the list, in order of end and key, and their number is the answer.
fn plan_sweep(
    state: &mut [u8],
    capacity: usize,
    timeout: u64,
    limit: u64,
    leaving: &mut [u16],
) -> usize
    requires { SweepAsked capacity timeout limit state.old leaving.old }
    ensures { PlanMade capacity timeout (goes timeout limit) (view capacity state.old) (view capacity state.new) (take result leaving.new) result }
{
    let mut n = 0;
    let mut next = table::next_due(state, capacity, limit);
    while let Some(i) = next {
        n = plan_one(state, capacity, timeout, leaving, n, i);
        next = table::next_due(state, capacity, limit);
    }
    n
}

/// Which flows leave by the clock: their slots go into the list, in order of end and key, and their number is the answer. None leaves
/// where the timeout is 0 or the clock has not reached the lateness.
pub fn plan_at(
    state: &mut [u8],
    capacity: usize,
    idle: Idle,
    clock: Nanos,
    leaving: &mut [u16],
) -> usize
    requires { PlanAsked capacity idle.timeout.0 idle.lateness.0 state.old leaving.old }
    ensures { PlanMade capacity idle.timeout.0 (leaves_by idle.timeout.0 idle.lateness.0 clock.0) (view capacity state.old) (view capacity state.new) (take result leaving.new) result }
{
    if idle.timeout.0 == 0 || clock.0 < idle.lateness.0 {
        return 0;
    }
    let limit = clock.0 - idle.lateness.0;
    plan_sweep(state, capacity, idle.timeout.0, limit, leaving)
}

/// Whether the queue has no entry that is due by the clock: then no flow leaves, and there is nothing to plan.
pub fn nothing_due(state: &[u8], capacity: usize, idle: Idle, clock: Nanos) -> bool
    requires { DueAsked capacity state.now }
    ensures { Decides result (NothingDue capacity idle.timeout.0 idle.lateness.0 clock.0 (view capacity state.now).tree) }
{
    if idle.timeout.0 == 0 || clock.0 < idle.lateness.0 {
        return true;
    }
    table::next_due(state, capacity, clock.0 - idle.lateness.0).is_none()
}
