// "Sound record" of document 01, decided. The end reason stands aside while a flow is open.
ghost use Rattle.std.specs.Prelude.{◌≡◌};
ghost use Rattle.flow.specs.Sound.{sound_flags, sound_length, sound_ttl, sound_direction, sound_aside, sound_record};

use crate::record::FlowRecord;
use crate::sums::fits_two;
use stats::counts::{DirectionStats, TcpFlagCounts};
use stats::range::Range;

// Each flag count at most its packets.
#[tactic(auto, unfolding(crate::specs::Sound::sound_flags))]
fn sound_flags(packets: u64, c: TcpFlagCounts) -> bool
    ensures { result ≡ sound_flags packets c }
{
    (c.fin <= packets)
        & (c.syn <= packets)
        & (c.rst <= packets)
        & (c.psh <= packets)
        & (c.ack <= packets)
        & (c.urg <= packets)
        & (c.ece <= packets)
        & (c.cwr <= packets)
        & (c.ns <= packets)
}

// A length range exactly if there are packets, its minimum at most its maximum.
#[tactic(auto, unfolding(crate::specs::Sound::sound_length))]
fn sound_length(packets: u64, length: Option<Range<u32>>) -> bool
    ensures { result ≡ sound_length packets length }
{
    match length {
        None => packets == 0,
        Some(r) => (0 < packets) & (r.min <= r.max),
    }
}

#[tactic(auto, unfolding(crate::specs::Sound::sound_ttl))]
fn sound_ttl(ttl: Option<Range<u8>>) -> bool
    ensures { result ≡ sound_ttl ttl }
{
    match ttl {
        None => true,
        Some(r) => r.min <= r.max,
    }
}

#[tactic(auto, unfolding(crate::specs::Sound::sound_direction))]
fn sound_direction(d: DirectionStats) -> bool
    ensures { result ≡ sound_direction d }
{
    sound_length(d.packets, d.packet_length)
        & ((0 < d.packets) | (d.frame_octets == 0))
        & sound_flags(d.packets, d.tcp_flags)
}

// Sound, end reason aside: what an open flow's record is.
#[tactic(auto, unfolding(crate::specs::Sound::sound_aside))]
pub fn sound_aside(record: FlowRecord) -> bool
    ensures { result ≡ sound_aside «record» }
{
    let forward = record.forward;
    let reverse = record.reverse;
    (record.time.start.0 <= record.time.end.0)
        & ((0 < forward.packets) | (0 < reverse.packets))
        & sound_direction(forward)
        & sound_direction(reverse)
        & sound_ttl(record.network.ttl)
        & fits_two(forward.packets, reverse.packets)
        & fits_two(forward.frame_octets, reverse.frame_octets)
}

/// Sound, with an end reason: what a finished flow's record is, and what may be written.
#[tactic(auto, unfolding(crate::specs::Sound::sound_record))]
pub fn sound(record: FlowRecord) -> bool
    ensures { result ≡ sound_record «record» }
{
    sound_aside(record) & record.time.end_reason.is_some()
}
