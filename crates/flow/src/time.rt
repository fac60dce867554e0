// When a flow happened (time.rs). The two kinds of time are two types: milliseconds at opening, nanoseconds everywhere else. They
// meet only where an engine's timeout and lateness are derived.
ghost use Rattle.std.specs.Prelude.{◌≡◌, ◌-◌};
ghost use Rattle.flow.specs.Counting.{start_state_after, counted_time, opening_time};
ghost use Rattle.flow.specs.Idle.{idle_of};

use crate::sums::million_times;

#[derive(Clone, Copy, Debug, PartialEq, Eq, PartialOrd, Ord)]
pub struct Millis(pub u64);

#[derive(Clone, Copy, Debug, PartialEq, Eq, PartialOrd, Ord)]
pub struct Nanos(pub u64);

// How long a flow may idle and how late a packet may be, both in nanoseconds. A timeout of 0 is none.
#[derive(Clone, Copy, Debug, PartialEq, Eq)]
pub struct Idle {
    pub timeout: Nanos,
    pub lateness: Nanos,
}

impl Idle {
    // The widest expiry bucket, one second. The queue here keeps each flow's own due time and needs no bucket.
    pub const MAX_BUCKET: u64 = 1_000_000_000;
    // How late a packet may arrive and still be counted on its own flow: one second, and never more than half the timeout.
    pub const MAX_LATENESS: u64 = 1_000_000_000;

    // From an idle timeout in milliseconds, held at the largest number of nanoseconds.
    pub fn from_timeout(timeout: Millis) -> Idle
        ensures { result ≡ idle_of timeout }
    {
        let nanos = million_times(timeout.0);
        Idle {
            timeout: Nanos(nanos),
            lateness: Nanos(Idle::MAX_LATENESS.min(nanos / 2)),
        }
    }
}

// The finest interval a capture source could distinguish: microseconds, or finer.
#[derive(Clone, Copy, Debug, PartialEq, Eq)]
pub enum TimeResolution {
    Microseconds,
    Nanoseconds,
}

// How a flow began.
#[derive(Clone, Copy, Debug, PartialEq, Eq)]
pub enum StartState {
    // A TCP handshake was observed from the start.
    SynObserved,
    // A TCP flow whose opening packets were never captured.
    MidStream,
    // Not a connection-oriented protocol, so there is no handshake to miss.
    NotApplicable,
}

// Why a flow stopped being tracked.
#[derive(Clone, Copy, Debug, PartialEq, Eq)]
pub enum EndReason {
    IdleTimeout,
    Fin,
    Rst,
    CaptureEnd,
}

// When a flow started and stopped, and what those events were. The end reason is absent while the flow is open.
#[derive(Clone, Copy, Debug, PartialEq, Eq)]
pub struct FlowTime {
    pub start: Nanos,
    pub end: Nanos,
    pub resolution: TimeResolution,
    pub start_state: StartState,
    pub end_reason: Option<EndReason>,
}

impl StartState {
    // A SYN at or before the start turns MidStream to SynObserved.
    pub fn after(self, early_syn: bool) -> StartState
        ensures { result ≡ start_state_after self early_syn }
    {
        match self {
            StartState::MidStream if early_syn => StartState::SynObserved,
            state => state,
        }
    }
}

impl FlowTime {
    pub fn opening(at: Nanos, resolution: TimeResolution, start_state: StartState) -> FlowTime
        ensures { result ≡ opening_time at resolution start_state }
    {
        FlowTime {
            start: at,
            end: at,
            resolution,
            start_state,
            end_reason: None,
        }
    }

    // The earliest and latest packet seen, not the first and last delivered: captures deliver out of order. The start state is
    // tested before the start moves.
    pub fn observe(self, at: Nanos, mask: u64) -> FlowTime
        ensures { result ≡ counted_time self at mask }
    {
        let early_syn = (mask / 2 % 2 == 1) & (at.0 <= self.start.0);
        FlowTime {
            start: Nanos(self.start.0.min(at.0)),
            end: Nanos(self.end.0.max(at.0)),
            start_state: self.start_state.after(early_syn),
            ..self
        }
    }

    // How long the flow lasted, in nanoseconds.
    pub fn duration(self) -> Nanos
        ensures { result.0 ≡ self.end.0 - self.start.0 }
    {
        Nanos(self.end.0.saturating_sub(self.start.0))
    }
}
