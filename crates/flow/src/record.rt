// A flow's record, and one packet counted on it (mod.rs).
ghost use Rattle.std.specs.Prelude.{◌≡◌, min, ◌+◌, ◌-◌, ◌^◌, ◌<◌};
ghost use Rattle.stats.specs.Counting.{RoomForPacket};
ghost use Rattle.flow.specs.Counting.{mask_of, is_truncated, first_of, widened_by, counted_network, counted_capture, counted_rest, taken, counted_of, start_state_of, nothing_yet, opened_of, closed, both_ways, has_room, RoomToCount};

use crate::sums::{fits_three, fits_two};
use crate::time::{EndReason, FlowTime, Nanos, StartState, TimeResolution};
use stats::counts::{CaptureStats, DirectionStats, NetworkStats, TcpFlagCounts, TransportStats};
use stats::range::Range;

// Which direction of a flow a packet travelled: that of the flow's first packet, or the other one.
#[derive(Clone, Copy, Debug, PartialEq, Eq)]
pub enum Direction {
    Forward,
    Reverse,
}

// One packet's contribution to a flow. TCP flags are a mask of nine bits, ICMP is 256 times its type plus its code.
#[derive(Clone, Copy, Debug, PartialEq, Eq)]
pub struct PacketFacts {
    pub time: Nanos,
    // Length on the wire, and length actually captured, which is smaller when the capture cut the packet short.
    pub frame_octets: u32,
    pub captured_octets: u32,
    pub ttl: Option<u8>,
    pub tcp_flags: Option<u16>,
    pub icmp: Option<u16>,
    pub dscp: Option<u8>,
    pub ecn: Option<u8>,
}

impl PacketFacts {
    // Whether the capture cut this packet short.
    pub fn truncated(self) -> bool
        ensures { result ≡ is_truncated self }
    {
        self.captured_octets < self.frame_octets
    }
}

// What a flow accumulated. Totals are derived, not stored: a total that cannot be written cannot drift.
#[derive(Clone, Copy, Debug, PartialEq, Eq)]
pub struct FlowRecord {
    pub time: FlowTime,
    pub forward: DirectionStats,
    pub reverse: DirectionStats,
    pub network: NetworkStats,
    pub transport: TransportStats,
    pub capture: CaptureStats,
}

/// The set flags; none where there are no flags.
pub fn mask_of(flags: Option<u16>) -> u64
    ensures { result ≡ mask_of flags }
{
    flags.unwrap_or(0) as u64
}

/// The first that is present.
pub fn first_of(kept: Option<u16>, new: Option<u16>) -> Option<u16>
    ensures { result ≡ first_of kept new }
{
    kept.or(new)
}

// TTL widens if present.
#[tactic(auto, using(stats::proofs::Numbers::widened_is))]
fn widened_by(ttl: Option<Range<u8>>, value: Option<u8>) -> Option<Range<u8>>
    ensures { result ≡ widened_by ttl value }
{
    match value {
        None => ttl,
        Some(x) => Range::observe(ttl, x),
    }
}

pub fn counted_capture(c: CaptureStats, packet: PacketFacts) -> CaptureStats
    requires { c.captured_octets + packet.captured_octets < 2 ^ 64 }
    ensures { result ≡ counted_capture c packet }
{
    CaptureStats {
        captured_octets: c.captured_octets + packet.captured_octets as u64,
        truncated: c.truncated | packet.truncated(),
    }
}

pub fn counted_network(n: NetworkStats, value: Option<u8>) -> NetworkStats
    ensures { result ≡ counted_network n value }
{
    NetworkStats {
        ttl: widened_by(n.ttl, value),
        ..n
    }
}

// Everything but the directions' own counts.
#[tactic(auto, unfolding(crate::specs::Counting::counted_rest))]
fn counted_rest(
    record: FlowRecord,
    packet: PacketFacts,
    forward: DirectionStats,
    reverse: DirectionStats,
) -> FlowRecord
    requires { RoomToCount «record» packet }
    ensures { result ≡ counted_rest «record» packet forward reverse }
{
    FlowRecord {
        time: record.time.observe(packet.time, mask_of(packet.tcp_flags)),
        forward,
        reverse,
        network: counted_network(record.network, packet.ttl),
        transport: TransportStats {
            icmp: first_of(record.transport.icmp, packet.icmp),
        },
        capture: counted_capture(record.capture, packet),
    }
}

#[tactic(auto, unfolding(crate::specs::Counting::taken))]
fn take(d: DirectionStats, packet: PacketFacts) -> DirectionStats
    requires { RoomForPacket d packet.frame_octets }
    ensures { result ≡ taken d packet }
{
    d.observe(packet.frame_octets, mask_of(packet.tcp_flags))
}

/// Whether the record has room for the packet: no count would pass 2^64 − 1.
#[tactic(auto, unfolding(crate::specs::Counting::has_room))]
pub fn has_room(record: FlowRecord, packet: PacketFacts) -> bool
    ensures { result ≡ has_room «record» packet }
{
    fits_three(record.forward.packets, record.reverse.packets, 1)
        & fits_three(
            record.forward.frame_octets,
            record.reverse.frame_octets,
            packet.frame_octets as u64,
        )
        & fits_two(
            record.capture.captured_octets,
            packet.captured_octets as u64,
        )
}

/// The record with the packet counted in its direction.
#[tactic(auto, unfolding(crate::specs::Counting::counted_of))]
pub fn counted_on(record: FlowRecord, direction: Direction, packet: PacketFacts) -> FlowRecord
    requires { RoomToCount «record» packet }
    ensures { result ≡ counted_of «record» direction packet }
{
    match direction {
        Direction::Forward => {
            counted_rest(record, packet, take(record.forward, packet), record.reverse)
        }
        Direction::Reverse => {
            counted_rest(record, packet, record.forward, take(record.reverse, packet))
        }
    }
}

// A TCP flow whose first packet has no SYN began before the capture did; other protocols have no handshake to have missed.
fn start_state(protocol: u8, packet: PacketFacts) -> StartState
    ensures { result ≡ start_state_of protocol packet }
{
    if protocol != 6 {
        return StartState::NotApplicable;
    }
    if mask_of(packet.tcp_flags) / 2 % 2 == 1 {
        StartState::SynObserved
    } else {
        StartState::MidStream
    }
}

fn nothing_yet() -> DirectionStats
    ensures { result ≡ nothing_yet }
{
    DirectionStats {
        packets: 0,
        frame_octets: 0,
        packet_length: None,
        tcp_flags: TcpFlagCounts {
            fin: 0,
            syn: 0,
            rst: 0,
            psh: 0,
            ack: 0,
            urg: 0,
            ece: 0,
            cwr: 0,
            ns: 0,
        },
    }
}

impl FlowRecord {
    /// Open a flow for the first packet seen on it. The packet is not counted here: it is counted like any other, once.
    #[tactic(auto, unfolding(crate::specs::Counting::opened_of))]
    pub fn open(resolution: TimeResolution, protocol: u8, packet: PacketFacts) -> FlowRecord
        ensures { result ≡ opened_of resolution protocol packet }
    {
        FlowRecord {
            time: FlowTime::opening(packet.time, resolution, start_state(protocol, packet)),
            forward: nothing_yet(),
            reverse: nothing_yet(),
            network: NetworkStats {
                ttl: None,
                dscp: packet.dscp,
                ecn: packet.ecn,
            },
            transport: TransportStats { icmp: None },
            capture: CaptureStats {
                captured_octets: 0,
                truncated: false,
            },
        }
    }

    /// The record with why the flow ended.
    #[tactic(auto, unfolding(crate::specs::Counting::closed))]
    pub fn close(self, reason: EndReason) -> FlowRecord
        ensures { result ≡ closed self reason }
    {
        FlowRecord {
            time: FlowTime {
                end_reason: Some(reason),
                ..self.time
            },
            ..self
        }
    }

    /// Packets in both directions; held at the largest number, which a sound record never reaches by a sum.
    pub fn packets(self) -> u64
        ensures { result ≡ min (self.forward.packets + self.reverse.packets) (2 ^ 64 - 1) }
    {
        self.forward.packets.saturating_add(self.reverse.packets)
    }

    /// Wire bytes in both directions, held likewise.
    pub fn frame_octets(self) -> u64
        ensures { result ≡ min (self.forward.frame_octets + self.reverse.frame_octets) (2 ^ 64 - 1) }
    {
        self.forward
            .frame_octets
            .saturating_add(self.reverse.frame_octets)
    }

    /// Whether traffic was seen in both directions.
    pub fn is_bidirectional(self) -> bool
        ensures { result ≡ both_ways self }
    {
        (0 < self.forward.packets) & (0 < self.reverse.packets)
    }
}
