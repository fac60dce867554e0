// The header of a state: whether opening can have given it.
ghost use Rattle.std.specs.Prelude.{◌≡◌};
ghost use Rattle.state.specs.HeaderTest.{times_given, sound_header};

use flow::time::{Idle, Nanos};
use table::Header;

// T is a whole number of milliseconds or held at the top, and L follows from it.
#[tactic(auto, using(crate::specs::HeaderTest::times_told))]
fn times_are_given(timeout: Nanos, lateness: Nanos) -> bool
    ensures { result ≡ times_given timeout.0 lateness.0 }
{
    let t = timeout.0;
    ((t % 1_000_000 == 0) | (t == 0xffff_ffff_ffff_ffff))
        & (lateness.0 == Idle::MAX_LATENESS.min(t / 2))
}

// Whether a header is one that opening gives, perhaps with another clock, and the memory is long enough for its capacity.
pub fn header_is_sound(header: Header, bytes: usize) -> bool
    ensures { result ≡ sound_header header bytes }
{
    if (header.capacity == 0) | (4096 < header.capacity) {
        return false;
    }
    let timeout = header.timeout;
    let lateness = header.lateness;
    let clock = header.clock;
    (header.layout == 1)
        & (256 + 640 * header.capacity <= bytes as u64)
        & times_are_given(timeout, lateness)
        & (header.resolution <= 1)
        & ((0 < timeout.0) | (clock.0 == 0))
}
