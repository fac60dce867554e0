//! A sweep: every flow that leaves at a time is handed out, or where the records do not fit, nothing is done.
ghost use Rattle.std.specs.Prelude.{length};
ghost use Rattle.rules.specs.Rules.{sweep_at};
ghost use Rattle.rules.specs.Engine.{engine};
ghost use Rattle.state.specs.State.{settings_in, meaning};
ghost use Rattle.sweeps.specs.Promise.{Did, Swept, number_in, records_in, bytes_in};
ghost use Rattle.sweeps.specs.Steps.{SoundReady, SweepPlanned, swept_to};

use crate::clock::clock_at;
use flow::time::{EndReason, Idle, Nanos};
use forms::refusal::Refusal;
use hand::out::{hand_out, put_back, sizes_of};
use plan::sweep::plan_at;
use state::check::check;

/// What a sweep or a drain handed out: so many records, which fill so many bytes of the output.
#[derive(Clone, Copy, Debug, PartialEq, Eq)]
pub struct HandedOut {
    pub records: usize,
    pub bytes: usize,
}

// The n slots of the list leave at the clock, and the queue does not name them: their flows are handed out and the clock is put, or
// where the records do not fit the queue names them again.
fn hand_swept(
    state: &mut [u8],
    capacity: usize,
    timeout: Nanos,
    clock: Nanos,
    leaving: &[u16],
    n: usize,
    index: &mut [u32],
    free: &mut [u16],
    out: &mut [u8],
) -> Result<HandedOut, Refusal>
    requires { SweepPlanned capacity timeout.0 clock.0 state.old leaving.now n index.old free.old }
    ensures { Did (swept_to (settings_in state.old) (length out.old) clock.0 (meaning state.old)) state.old out.old (number_in result) (records_in result) (bytes_in result) state.new out.new }
{
    let reason = EndReason::IdleTimeout;
    let size = sizes_of(state, capacity, leaving, n, reason);
    if out.len() < size {
        put_back(state, capacity, timeout.0, leaving, n);
        return Err(Refusal::Room);
    }
    let bytes = hand_out(state, capacity, leaving, n, reason, index, free, out);
    table::store_clock(state, capacity, clock);
    Ok(HandedOut { records: n, bytes })
}

// A sweep of a sound state.
fn sweep_sound(
    state: &mut [u8],
    time: Nanos,
    index: &mut [u32],
    free: &mut [u16],
    out: &mut [u8],
) -> Result<HandedOut, Refusal>
    requires { SoundReady state.old index.old free.old }
    ensures { Did (sweep_at engine (settings_in state.old) (length out.old) time.0 (meaning state.old)) state.old out.old (number_in result) (records_in result) (bytes_in result) state.new out.new }
{
    let header = table::load_header(state);
    let capacity = header.capacity as usize;
    let timeout = header.timeout;
    let clock = clock_at(timeout, header.clock, time);
    let idle = Idle {
        timeout,
        lateness: header.lateness,
    };
    let mut leaving = [0u16; 4096];
    let n = plan_at(state, capacity, idle, clock, &mut leaving);
    hand_swept(
        state, capacity, timeout, clock, &leaving, n, index, free, out,
    )
}

/// Every flow that leaves at this time is handed out, in order of end and key. Refused are a damaged state (Damaged) and too little
/// output (Room).
pub fn sweep(state: &mut [u8], time: Nanos, out: &mut [u8]) -> Result<HandedOut, Refusal>
    ensures { Swept time.0 state.old out.old (number_in result) (records_in result) (bytes_in result) state.new out.new }
{
    let mut index = [0u32; 16384];
    let mut free = [0u16; 4097];
    if check(state, &mut index, &mut free) {
        return sweep_sound(state, time, &mut index, &mut free, out);
    }
    Err(Refusal::Damaged)
}
