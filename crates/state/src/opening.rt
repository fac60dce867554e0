//! Opening: memory of any content becomes a sound state with no flow.

ghost use Rattle.state.specs.Opening.{Opened};

use flow::time::{Idle, Millis, TimeResolution};
use forms::refusal::Refusal;
use wire::record::resolution_number;

/// Opens a state of a capacity, with an idle timeout and the resolution of its records' times. Refused are a capacity of 0 or above
/// 4096 (Capacity), and too few bytes (Memory).
pub fn open(
    state: &mut [u8],
    capacity: u64,
    timeout: Millis,
    resolution: TimeResolution,
) -> Result<(), Refusal>
    ensures { Opened state.old capacity timeout resolution result state.new }
{
    if capacity == 0 || 4096 < capacity {
        return Err(Refusal::Capacity);
    }
    if (state.len() as u64) < 256 + 640 * capacity {
        return Err(Refusal::Memory);
    }
    let idle = Idle::from_timeout(timeout);
    table::clear_state(
        state,
        capacity as usize,
        idle.timeout,
        idle.lateness,
        resolution_number(resolution),
    );
    Ok(())
}
