//! A drain's plan: every open slot, in order of key bytes.
ghost use Rattle.std.specs.Prelude.{take};
ghost use Rattle.table.specs.View.{view};
ghost use Rattle.plan.specs.Plan.{DrainAsked, Gathered};
ghost use Rattle.plan.specs.Steps.{key_at, PlaceAsked, PlaceFor, GatherAsked, SlotGathered};

use crate::order::key_at_most;
use crate::sweep::put_in;
use slots::{HEADER_BYTES, SLOT_BYTES, USED};

// Where slot i belongs in the first n of the list, by key.
fn place_by_key(state: &[u8], leaving: &[u16], n: usize, i: usize) -> usize
    requires { PlaceAsked state.now leaving.now n i }
    ensures { PlaceFor (key_at state.now) (take n leaving.now) i result }
{
    let last = leaving[..n]
        .iter()
        .rposition(|&j| !key_at_most(state, i, j as usize));
    last.map_or(0, |k| k + 1)
}

// Slot i goes into the list if it is used.
fn gather_one(state: &[u8], leaving: &mut [u16], n: usize, i: usize) -> usize
    requires { GatherAsked state.now leaving.old n i }
    ensures { SlotGathered i n state.now leaving.old leaving.new result }
{
    if state[HEADER_BYTES + SLOT_BYTES * i] != USED {
        return n;
    }
    let k = place_by_key(state, leaving, n, i);
    put_in(leaving, n, k, i as u16);
    n + 1
}

/// Every open slot, in order of key bytes; their number is the answer.
pub fn plan_drain(state: &[u8], capacity: usize, leaving: &mut [u16]) -> usize
    requires { DrainAsked capacity state.now leaving.old }
    ensures { Gathered capacity (view capacity state.now).table (take result leaving.new) result }
{
    let mut n = 0;
    for i in 0..capacity {
        n = gather_one(state, leaving, n, i);
    }
    n
}
