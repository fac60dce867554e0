// What a flow accumulated (stats.rs).
ghost use Rattle.std.specs.Prelude.{◌≡◌, eqb, ◌+◌, ◌/◌, ◌%◌};
ghost use Rattle.stats.specs.Counting.{counted_flags, counted_direction, RoomForFlags, RoomForPacket};

use crate::range::Range;

// How many packets in one direction carried each TCP control bit.
#[derive(Clone, Copy, Debug, PartialEq, Eq)]
pub struct TcpFlagCounts {
    pub fin: u64,
    pub syn: u64,
    pub rst: u64,
    pub psh: u64,
    pub ack: u64,
    pub urg: u64,
    pub ece: u64,
    pub cwr: u64,
    pub ns: u64,
}

// What one direction of a flow carried.
#[derive(Clone, Copy, Debug, PartialEq, Eq)]
pub struct DirectionStats {
    pub packets: u64,
    pub frame_octets: u64,
    pub packet_length: Option<Range<u32>>,
    pub tcp_flags: TcpFlagCounts,
}

// Network-layer properties observed across the flow.
#[derive(Clone, Copy, Debug, PartialEq, Eq)]
pub struct NetworkStats {
    pub ttl: Option<Range<u8>>,
    pub dscp: Option<u8>,
    pub ecn: Option<u8>,
}

// ICMP is 256 times its type plus its code.
#[derive(Clone, Copy, Debug, PartialEq, Eq)]
pub struct TransportStats {
    pub icmp: Option<u16>,
}

// How much of the traffic the capture actually saw.
#[derive(Clone, Copy, Debug, PartialEq, Eq)]
pub struct CaptureStats {
    pub captured_octets: u64,
    pub truncated: bool,
}

impl TcpFlagCounts {
    // One more for each flag that the mask has set.
    pub fn count(self, mask: u64) -> TcpFlagCounts
        requires { RoomForFlags self }
        ensures { result ≡ counted_flags self mask }
    {
        TcpFlagCounts {
            fin: self.fin + mask % 2,
            syn: self.syn + mask / 2 % 2,
            rst: self.rst + mask / 4 % 2,
            psh: self.psh + mask / 8 % 2,
            ack: self.ack + mask / 16 % 2,
            urg: self.urg + mask / 32 % 2,
            ece: self.ece + mask / 64 % 2,
            cwr: self.cwr + mask / 128 % 2,
            ns: self.ns + mask / 256 % 2,
        }
    }
}

impl DirectionStats {
    // Fold one packet into this direction.
    pub fn observe(self, frame_octets: u32, mask: u64) -> DirectionStats
        requires { RoomForPacket self frame_octets }
        ensures { result ≡ counted_direction self frame_octets mask }
    {
        DirectionStats {
            packets: self.packets + 1,
            frame_octets: self.frame_octets + frame_octets as u64,
            packet_length: Range::observe(self.packet_length, frame_octets),
            tcp_flags: self.tcp_flags.count(mask),
        }
    }

    // Whether this direction was never seen.
    pub fn is_empty(self) -> bool
        ensures { result ≡ eqb self.packets 0 }
    {
        self.packets == 0
    }
}
