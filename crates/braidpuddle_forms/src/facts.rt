// A packet's eight numbers: time, frame octets, captured octets, TTL, TCP flags, ICMP, DSCP, ECN.
ghost use Rattle.std.specs.Prelude.{◌≡◌, true};
ghost use Rattle.braidpuddle_forms.specs.Facts.{fact_numbers, facts_fit, facts_from};

use flow::record::PacketFacts;
use flow::time::Nanos;
use forms::optional::{opt_u8_number, opt_u16_number};
use words::fields::{opt_u8_at, opt_u16_at};

// Whether some packet in range has these numbers.
pub fn facts_fit(numbers: &[u64; 8]) -> bool
    ensures { result ≡ facts_fit numbers.now }
{
    (numbers[1] < 0x1_0000_0000)
        & (numbers[2] < 0x1_0000_0000)
        & (numbers[3] <= 256)
        & (numbers[4] <= 512)
        & (numbers[5] <= 65536)
        & (numbers[6] <= 256)
        & (numbers[7] <= 256)
}

// The packet that these numbers stand for.
pub(crate) fn facts_from(numbers: &[u64; 8]) -> PacketFacts
    requires { facts_fit numbers.now ≡ true }
    ensures { result ≡ facts_from numbers.now }
{
    let frame = numbers[1];
    let captured = numbers[2];
    let ttl = numbers[3];
    let flags = numbers[4];
    let icmp = numbers[5];
    let dscp = numbers[6];
    let ecn = numbers[7];
    PacketFacts {
        time: Nanos(numbers[0]),
        frame_octets: frame as u32,
        captured_octets: captured as u32,
        ttl: opt_u8_at(ttl),
        tcp_flags: opt_u16_at(flags),
        icmp: opt_u16_at(icmp),
        dscp: opt_u8_at(dscp),
        ecn: opt_u8_at(ecn),
    }
}

// The numbers that stand for the packet.
pub fn fact_numbers(facts: PacketFacts) -> [u64; 8]
    ensures { result ≡ fact_numbers facts }
{
    let time = facts.time;
    let ttl = facts.ttl;
    let flags = facts.tcp_flags;
    let icmp = facts.icmp;
    let dscp = facts.dscp;
    let ecn = facts.ecn;
    [
        time.0,
        facts.frame_octets as u64,
        facts.captured_octets as u64,
        opt_u8_number(ttl),
        opt_u16_number(flags),
        opt_u16_number(icmp),
        opt_u8_number(dscp),
        opt_u8_number(ecn),
    ]
}
