// The engine's calls on memory that the caller lends: open, feed, sweep, drain. None has a `requires`: each refuses what it cannot do, on
// any bytes whatever, and its promise says everything that it answers and leaves.
#![tactic(auto)]

pub mod batch;

ghost use Rattle.state.specs.Opening.{Opened};
ghost use Rattle.sweeps.specs.Promise.{Swept, Drained, number_in, records_in, bytes_in};
ghost use Rattle.engine.specs.Feed.{Fed};

use crate::batch::{feed_sound, nothing_yet, stopped};
use flow::time::{Millis, Nanos, TimeResolution};
use forms::refusal::Refusal;
use state::check::check;
use sweeps::sweep::HandedOut;

// What feeding a batch did: the refusal that stopped it, if there is one; the packets taken and the bytes of the batch that they fill; the flows
// opened; the records written, and their bytes.
#[derive(Clone, Copy)]
pub struct FeedAnswer {
    pub refusal: Option<Refusal>,
    pub packets: usize,
    pub used: usize,
    pub opened: usize,
    pub records: usize,
    pub bytes: usize,
}

// Opens a state of a capacity, with an idle timeout and the resolution of its records' times. Refusals: 1 Capacity, 2 Memory.
pub fn open(
    state: &mut [u8],
    capacity: u64,
    timeout: Millis,
    resolution: TimeResolution,
) -> Result<(), Refusal>
    ensures { Opened state.old capacity timeout resolution result state.new }
{
    state::opening::open(state, capacity, timeout, resolution)
}

// Every packet of the batch, in order; a refused packet stops it, and what was taken before it stands. Refusals: 3 Damaged before any
// packet; then packet by packet 4 Packet or 9 Short, then 5 Full or 6 Spent, then 7 Room.
pub fn feed(state: &mut [u8], batch: &[u8], out: &mut [u8]) -> FeedAnswer
    ensures { Fed state.old batch.now out.old result state.new out.new }
{
    let mut index = [0u32; 16384];
    let mut free = [0u16; 4097];
    if check(state, &mut index, &mut free) {
        return feed_sound(state, batch, &mut index, &mut free, out);
    }
    stopped(Refusal::Damaged, nothing_yet())
}

// Every flow that leaves at this time is handed out, by end and then key bytes. Refusals: 3 Damaged, 7 Room.
pub fn sweep(state: &mut [u8], time: Nanos, out: &mut [u8]) -> Result<HandedOut, Refusal>
    ensures { Swept time.0 state.old out.old (number_in result) (records_in result) (bytes_in result) state.new out.new }
{
    sweeps::sweep::sweep(state, time, out)
}

// Every flow is handed out, in order of key bytes; the clock stays. Refusals: 3 Damaged, 7 Room.
pub fn drain(state: &mut [u8], out: &mut [u8]) -> Result<HandedOut, Refusal>
    ensures { Drained state.old out.old (number_in result) (records_in result) (bytes_in result) state.new out.new }
{
    sweeps::drain::drain(state, out)
}
