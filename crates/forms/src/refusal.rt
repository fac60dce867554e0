//! Why a call did nothing.

ghost use Rattle.std.specs.Prelude.{◌≡◌};
ghost use Rattle.forms.specs.Refusals.{refusal_number, refusal_of};

use crate::stop::Stop;

/// Why a call did nothing, or why a batch was stopped. Each has a number, which a host written in another language sees.
#[derive(Clone, Copy, Debug, PartialEq, Eq)]
pub enum Refusal {
    /// A capacity of 0, or above 4096.
    Capacity = 1,
    /// Fewer bytes than a state of the capacity takes.
    Memory = 2,
    /// The state, or the record, is not sound.
    Damaged = 3,
    /// No packet: bytes that no form begins with, or a field out of range.
    Packet = 4,
    /// A flow would open, and all are taken.
    Full = 5,
    /// A count would pass the largest number.
    Spent = 6,
    /// Less output than the answer takes.
    Room = 7,
    /// No record: bytes that no form begins with, or one that is not sound.
    Record = 8,
    /// The bytes end within a form.
    Short = 9,
}

impl Refusal {
    /// The number that stands for it.
    pub fn number(self) -> u8
        ensures { result ≡ refusal_number self }
    {
        self as u8
    }
}

impl From<Stop> for Refusal {
    ghost from_gives = { λ stop refusal. refusal ≡ refusal_of stop };

    fn from(stop: Stop) -> Refusal {
        match stop {
            Stop::Short => Refusal::Short,
            Stop::Refused => Refusal::Packet,
        }
    }
}
