// The engine's calls on memory that the caller lends. Each answers the refusal's number, 0 for none, on any bytes whatever.
ghost use Rattle.std.specs.Prelude.{◌≡◌};
ghost use Rattle.forms.specs.Refusals.{stop_number};
ghost use Rattle.braidpuddle.specs.Calls.{state_bytes, OpenedBy, FedBy, SweptBy, DrainedBy, CountedFlows, numbers_of};

use flow::time::{Millis, Nanos};
use forms::refusal::Refusal;
use state::check::check;
use sweeps::sweep::HandedOut;
use wire::record::resolution_from;

// How many bytes of memory a state of this capacity takes; 0 where opening refuses the capacity.
pub fn braidpuddle_state_bytes(capacity: u64) -> u64
    ensures { result ≡ state_bytes capacity }
{
    if (capacity == 0) | (4096 < capacity) {
        return 0;
    }
    256 + 640 * capacity
}

// The number of what stopped a batch; 0 where nothing did.
fn number_of(refusal: Option<Refusal>) -> u64
    ensures { result ≡ stop_number refusal }
{
    match refusal {
        None => 0,
        Some(refusal) => refusal.number() as u64,
    }
}

// The six numbers of a sweep or a drain.
fn numbers_of(handed: Result<HandedOut, Refusal>) -> [u64; 6]
    ensures { result ≡ numbers_of handed }
{
    match handed {
        Ok(handed) => [0, 0, 0, 0, handed.records as u64, handed.bytes as u64],
        Err(refusal) => [refusal.number() as u64, 0, 0, 0, 0, 0],
    }
}

// Opens a state. Resolution 0 is microseconds, any other number finer. Refusals: 1 Capacity, 2 Memory.
pub fn braidpuddle_open(state: &mut [u8], capacity: u64, timeout_ms: u64, resolution: u64) -> u64
    ensures { OpenedBy state.old capacity timeout_ms resolution result state.new }
{
    match engine::open(
        state,
        capacity,
        Millis(timeout_ms),
        resolution_from(resolution),
    ) {
        Ok(()) => 0,
        Err(refusal) => refusal.number() as u64,
    }
}

// Feeds a batch. The answer: refusal, packets taken, batch bytes used, flows opened, records written, output bytes filled. Refusals:
// 3 Damaged before any packet; then packet by packet 4 Packet or 9 Short, then 5 Full or 6 Spent, then 7 Room.
pub fn braidpuddle_feed(
    state: &mut [u8],
    batch: &[u8],
    out: &mut [u8],
    answer: &mut [u64; 6],
) -> u64
    ensures { FedBy state.old batch.now out.old result answer.new state.new out.new }
{
    let fed = engine::feed(state, batch, out);
    let refusal = number_of(fed.refusal);
    *answer = [
        refusal,
        fed.packets as u64,
        fed.used as u64,
        fed.opened as u64,
        fed.records as u64,
        fed.bytes as u64,
    ];
    refusal
}

// Sweeps at a time. The answer is as feeding's: refusal, three zeros, records written, output bytes filled. Refusals: 3 Damaged, 7 Room.
pub fn braidpuddle_sweep(
    state: &mut [u8],
    time_ns: u64,
    out: &mut [u8],
    answer: &mut [u64; 6],
) -> u64
    ensures { SweptBy time_ns state.old out.old result answer.new state.new out.new }
{
    *answer = numbers_of(engine::sweep(state, Nanos(time_ns), out));
    answer[0]
}

// Drains. Answer and refusals are a sweep's.
pub fn braidpuddle_drain(state: &mut [u8], out: &mut [u8], answer: &mut [u64; 6]) -> u64
    ensures { DrainedBy state.old out.old result answer.new state.new out.new }
{
    *answer = numbers_of(engine::drain(state, out));
    answer[0]
}

// How many flows are open; 2^64 - 1 where the state is damaged.
pub fn braidpuddle_open_flows(state: &[u8]) -> u64
    ensures { CountedFlows state.now result }
{
    let mut index = [0u32; 16384];
    let mut free = [0u16; 4097];
    if check(state, &mut index, &mut free) {
        let header = table::load_header(state);
        return header.capacity - free[0] as u64;
    }
    18446744073709551615
}
