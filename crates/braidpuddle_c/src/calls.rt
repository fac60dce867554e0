// The engine's calls on memory that the caller lends. Each answers the refusal's number, 0 for none, on any bytes whatever.
ghost use Rattle.std.specs.Prelude.{◌≡◌};
ghost use Rattle.braidpuddle.specs.Calls.{state_bytes, OpenedBy, FedBy, SweptBy, DrainedBy, CountedFlows};

// How many bytes of memory a state of this capacity takes; 0 where opening refuses the capacity.
#[unsafe(no_mangle)]
pub extern "C" fn braidpuddle_state_bytes(capacity: u64) -> u64
    ensures { result ≡ state_bytes capacity }
{
    braidpuddle::calls::braidpuddle_state_bytes(capacity)
}

// Opens a state. Resolution 0 is microseconds, any other number finer. Refusals: 1 Capacity, 2 Memory.
#[unsafe(no_mangle)]
pub extern "C" fn braidpuddle_open(
    state: &mut [u8],
    capacity: u64,
    timeout_ms: u64,
    resolution: u64,
) -> u64
    ensures { OpenedBy state.old capacity timeout_ms resolution result state.new }
{
    braidpuddle::calls::braidpuddle_open(state, capacity, timeout_ms, resolution)
}

// Feeds a batch. The answer: refusal, packets taken, batch bytes used, flows opened, records written, output bytes filled. Refusals:
// 3 Damaged before any packet; then packet by packet 4 Packet or 9 Short, then 5 Full or 6 Spent, then 7 Room.
#[unsafe(no_mangle)]
pub extern "C" fn braidpuddle_feed(
    state: &mut [u8],
    batch: &[u8],
    out: &mut [u8],
    answer: &mut [u64; 6],
) -> u64
    ensures { FedBy state.old batch.now out.old result answer.new state.new out.new }
{
    braidpuddle::calls::braidpuddle_feed(state, batch, out, answer)
}

// Sweeps at a time. The answer is as feeding's: refusal, three zeros, records written, output bytes filled. Refusals: 3 Damaged, 7 Room.
#[unsafe(no_mangle)]
pub extern "C" fn braidpuddle_sweep(
    state: &mut [u8],
    time_ns: u64,
    out: &mut [u8],
    answer: &mut [u64; 6],
) -> u64
    ensures { SweptBy time_ns state.old out.old result answer.new state.new out.new }
{
    braidpuddle::calls::braidpuddle_sweep(state, time_ns, out, answer)
}

// Drains. Answer and refusals are a sweep's.
#[unsafe(no_mangle)]
pub extern "C" fn braidpuddle_drain(state: &mut [u8], out: &mut [u8], answer: &mut [u64; 6]) -> u64
    ensures { DrainedBy state.old out.old result answer.new state.new out.new }
{
    braidpuddle::calls::braidpuddle_drain(state, out, answer)
}

// How many flows are open; 2^64 - 1 where the state is damaged.
#[unsafe(no_mangle)]
pub extern "C" fn braidpuddle_open_flows(state: &[u8]) -> u64
    ensures { CountedFlows state.now result }
{
    braidpuddle::calls::braidpuddle_open_flows(state)
}
