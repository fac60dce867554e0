// One packet counted on words: on those that both directions share, and on those of its own direction. No other word changes, so
// none of the other direction has to be read.
ghost use Rattle.std.specs.Prelude.{◌≡◌};
ghost use Rattle.flow.specs.Counting.{taken, counted_of};
ghost use Rattle.flow.specs.declared.record.Direction.{Direction};
ghost use Rattle.words.specs.Words.{shared_words, direction_words, direction_at, record_of};
ghost use Rattle.words.specs.Counting.{SharedFits, DirectionFits};

use crate::fields::opt_u16_at;
use crate::words::{direction_at, network_at, put_direction, put_shared, time_at};
use flow::record::{PacketFacts, counted_capture, counted_network, first_of, mask_of};
use stats::counts::CaptureStats;

// The eleven shared words of a record with the packet counted.
#[tactic(auto, using(crate::specs::Counting::shared_made))]
pub fn counted_shared(ws: &[u64], packet: PacketFacts) -> [u64; 11]
    requires { SharedFits ws.now packet }
    ensures { result ≡ shared_words (counted_of (record_of ws.now) Direction.Forward packet) }
{
    let mask = mask_of(packet.tcp_flags);
    let time = time_at(ws).observe(packet.time, mask);
    let network = counted_network(network_at(ws), packet.ttl);
    let icmp = first_of(opt_u16_at(ws[8]), packet.icmp);
    let capture = counted_capture(
        CaptureStats {
            captured_octets: ws[9],
            truncated: ws[10] == 1,
        },
        packet,
    );
    let mut words = [0u64; 11];
    put_shared(&mut words, time, network, icmp, capture);
    words
}

// The thirteen words of a direction with the packet counted.
#[tactic(auto, using(crate::specs::Counting::room_read, crate::specs::Counting::direction_made))]
pub fn counted_direction(ws: &[u64], packet: PacketFacts) -> [u64; 13]
    requires { DirectionFits ws.now packet }
    ensures { result ≡ direction_words (taken (direction_at ws.now 0) packet) }
{
    let direction = direction_at(ws, 0).observe(packet.frame_octets, mask_of(packet.tcp_flags));
    let mut words = [0u64; 13];
    put_direction(&mut words, 0, direction);
    words
}
