//! The engine's clock.
ghost use Rattle.std.specs.Prelude.{◌≡◌, cond, max, eqb};

use flow::time::Nanos;

/// The clock after a sweep at this time: it stays at 0 with timeout 0.
#[tactic(auto, using(crate::specs::SweepLaws::clock_stays, crate::specs::SweepLaws::clock_moves))]
pub fn clock_at(timeout: Nanos, clock: Nanos, time: Nanos) -> Nanos
    ensures { result.0 ≡ cond (eqb timeout.0 0) clock.0 (max clock.0 time.0) }
{
    if timeout.0 == 0 {
        return clock;
    }
    Nanos(clock.0.max(time.0))
}
