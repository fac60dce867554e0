//! A drain: every flow is handed out, or where the records do not fit, nothing is done.
ghost use Rattle.std.specs.Prelude.{length};
ghost use Rattle.rules.specs.Rules.{drain_all};
ghost use Rattle.rules.specs.Engine.{engine};
ghost use Rattle.state.specs.State.{meaning};
ghost use Rattle.sweeps.specs.Promise.{Did, Drained, number_in, records_in, bytes_in};
ghost use Rattle.sweeps.specs.Steps.{SoundReady, DrainPlanned};

use crate::sweep::HandedOut;
use flow::time::EndReason;
use forms::refusal::Refusal;
use hand::out::{hand_out, sizes_of};
use plan::drain::plan_drain;
use state::check::check;

// The n slots of the list are all that are open: their flows are handed out, and the queue names nothing then; or where the records
// do not fit, nothing is done.
fn hand_drained(
    state: &mut [u8],
    capacity: usize,
    leaving: &[u16],
    n: usize,
    index: &mut [u32],
    free: &mut [u16],
    out: &mut [u8],
) -> Result<HandedOut, Refusal>
    requires { DrainPlanned capacity state.old leaving.now n index.old free.old }
    ensures { Did (drain_all engine (length out.old) (meaning state.old)) state.old out.old (number_in result) (records_in result) (bytes_in result) state.new out.new }
{
    let reason = EndReason::CaptureEnd;
    let size = sizes_of(state, capacity, leaving, n, reason);
    if out.len() < size {
        return Err(Refusal::Room);
    }
    table::clear_queue(state, capacity);
    let bytes = hand_out(state, capacity, leaving, n, reason, index, free, out);
    Ok(HandedOut { records: n, bytes })
}

// A drain of a sound state.
#[tactic(auto, using(crate::specs::DrainLaws::drain_plans, crate::specs::DrainLaws::drain_planned))]
fn drain_sound(
    state: &mut [u8],
    index: &mut [u32],
    free: &mut [u16],
    out: &mut [u8],
) -> Result<HandedOut, Refusal>
    requires { SoundReady state.old index.old free.old }
    ensures { Did (drain_all engine (length out.old) (meaning state.old)) state.old out.old (number_in result) (records_in result) (bytes_in result) state.new out.new }
{
    let header = table::load_header(state);
    let capacity = header.capacity as usize;
    let mut leaving = [0u16; 4096];
    let n = plan_drain(state, capacity, &mut leaving);
    hand_drained(state, capacity, &leaving, n, index, free, out)
}

/// Every flow is handed out, in order of key bytes; the clock stays. Refused are a damaged state (Damaged) and too little output
/// (Room).
pub fn drain(state: &mut [u8], out: &mut [u8]) -> Result<HandedOut, Refusal>
    ensures { Drained state.old out.old (number_in result) (records_in result) (bytes_in result) state.new out.new }
{
    let mut index = [0u32; 16384];
    let mut free = [0u16; 4097];
    if check(state, &mut index, &mut free) {
        return drain_sound(state, &mut index, &mut free, out);
    }
    Err(Refusal::Damaged)
}
