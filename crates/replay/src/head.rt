//! What the input begins with: the timeout and the resolution.
ghost use Rattle.std.specs.Prelude.{◌≡◌};
ghost use Rattle.replay.specs.Head.{head_of, numbered};

use flow::time::{Millis, TimeResolution};
use forms::number::read_lone_number;
use forms::refusal::Refusal;
use wire::record::resolution_from;

/// The longest timeout takes 10 bytes, a resolution 1.
pub const MOST_BYTES: usize = 11;

/// What the engine is opened with, and how many bytes said so.
#[derive(Clone, Copy, Debug, PartialEq, Eq)]
pub struct Settings {
    pub timeout: Millis,
    pub resolution: TimeResolution,
    pub length: usize,
}

/// The head of an input. Refused are bytes that begin with none (Packet), and a head that is cut off (Short).
#[tactic(auto, using(crate::specs::Head::timeout_refused))]
pub fn read_head(bytes: &[u8]) -> Result<Settings, Refusal>
    ensures { numbered result ≡ head_of bytes.now }
{
    let (timeout, behind) = read_lone_number(bytes, u64::MAX)?;
    let (number, used) = read_lone_number(&bytes[behind..], 1)?;
    Ok(Settings {
        timeout: Millis(timeout),
        resolution: resolution_from(number),
        length: behind + used,
    })
}
