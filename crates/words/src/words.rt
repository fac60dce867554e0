// A record's 37 words: start, end, start state, resolution, least and greatest TTL, DSCP, ECN, ICMP, captured octets, truncated;
// then for each direction packets, frame octets, least and greatest length, nine flag counts. An open flow has no end reason, and
// none is kept.
ghost use Rattle.std.specs.Prelude.{◌≡◌, true, ◌+◌, ◌≤◌, ◌^◌, length, get_or};
ghost use Rattle.words.specs.Fields.{BoundsFit};
ghost use Rattle.words.specs.Words.{shared_parts, direction_words, words_of, written, time_at, direction_at, network_at, record_of, words_fit, NetworkFits};

use crate::fields::{bounds_fit, opt_u8_at, opt_u16_at, range8_at, range32_at};
use flow::record::FlowRecord;
use flow::time::{FlowTime, Nanos};
use forms::optional::{opt_u8_number, opt_u16_number};
use stats::counts::{CaptureStats, DirectionStats, NetworkStats, TcpFlagCounts, TransportStats};
use wire::record::{
    bit_number, greatest_number8, greatest_number32, least_number8, least_number32,
    resolution_from, resolution_number, state_from, state_number,
};

// Whether some record has these words.
#[tactic(auto, unfolding(crate::specs::Words::words_fit, crate::specs::Fields::bounds_fit))]
pub fn words_fit(ws: &[u64]) -> bool
    requires { length ws.now ≡ 37 }
    ensures { result ≡ words_fit ws.now }
{
    (ws[2] <= 2)
        & (ws[3] <= 1)
        & bounds_fit(256, ws[4], ws[5])
        & (ws[6] <= 256)
        & (ws[7] <= 256)
        & (ws[8] <= 65536)
        & (ws[10] <= 1)
        & bounds_fit(0x1_0000_0000, ws[13], ws[14])
        & bounds_fit(0x1_0000_0000, ws[26], ws[27])
}

pub(crate) fn time_at(ws: &[u64]) -> FlowTime
    requires { 11 ≤ length ws.now }
    ensures { result ≡ time_at ws.now }
{
    FlowTime {
        start: Nanos(ws[0]),
        end: Nanos(ws[1]),
        resolution: resolution_from(ws[3]),
        start_state: state_from(ws[2]),
        end_reason: None,
    }
}

pub(crate) fn network_at(ws: &[u64]) -> NetworkStats
    requires in_bounds { 11 ≤ length ws.now }
    requires network_fits { NetworkFits ws.now }
    ensures { result ≡ network_at ws.now }
{
    NetworkStats {
        ttl: range8_at(ws[4], ws[5]),
        dscp: opt_u8_at(ws[6]),
        ecn: opt_u8_at(ws[7]),
    }
}

// The direction whose 13 words begin at `at`.
#[tactic(auto, unfolding(crate::specs::Words::direction_at))]
pub(crate) fn direction_at(ws: &[u64], at: usize) -> DirectionStats
    requires at_in_bounds { at + 13 ≤ length ws.now }
    requires bounds_fit { BoundsFit (2 ^ 32) (get_or ws.now (at + 2) 0) (get_or ws.now (at + 3) 0) }
    ensures { result ≡ direction_at ws.now at }
{
    DirectionStats {
        packets: ws[at],
        frame_octets: ws[at + 1],
        packet_length: range32_at(ws[at + 2], ws[at + 3]),
        tcp_flags: TcpFlagCounts {
            fin: ws[at + 4],
            syn: ws[at + 5],
            rst: ws[at + 6],
            psh: ws[at + 7],
            ack: ws[at + 8],
            urg: ws[at + 9],
            ece: ws[at + 10],
            cwr: ws[at + 11],
            ns: ws[at + 12],
        },
    }
}

// The record that these words stand for.
pub fn record_of(ws: &[u64]) -> FlowRecord
    requires ws_len { length ws.now ≡ 37 }
    requires ws_value { words_fit ws.now ≡ true }
    ensures { result ≡ record_of ws.now }
{
    FlowRecord {
        time: time_at(ws),
        forward: direction_at(ws, 11),
        reverse: direction_at(ws, 24),
        network: network_at(ws),
        transport: TransportStats {
            icmp: opt_u16_at(ws[8]),
        },
        capture: CaptureStats {
            captured_octets: ws[9],
            truncated: ws[10] == 1,
        },
    }
}

// The eleven words that belong to no direction, in front.
pub(crate) fn put_shared(
    words: &mut [u64],
    time: FlowTime,
    network: NetworkStats,
    icmp: Option<u16>,
    capture: CaptureStats,
)
    requires { 11 ≤ length words.old }
    ensures { words.new ≡ written words.old 0 0 (shared_parts time network icmp capture) }
{
    words[0] = time.start.0;
    words[1] = time.end.0;
    words[2] = state_number(time.start_state);
    words[3] = resolution_number(time.resolution);
    words[4] = least_number8(network.ttl);
    words[5] = greatest_number8(network.ttl);
    words[6] = opt_u8_number(network.dscp);
    words[7] = opt_u8_number(network.ecn);
    words[8] = opt_u16_number(icmp);
    words[9] = capture.captured_octets;
    words[10] = bit_number(capture.truncated);
}

// A direction's 13 words, from `at` on.
pub(crate) fn put_direction(words: &mut [u64], at: usize, direction: DirectionStats)
    requires { at + 13 ≤ length words.old }
    ensures { words.new ≡ written words.old at 0 (direction_words direction) }
{
    let flags = direction.tcp_flags;
    words[at] = direction.packets;
    words[at + 1] = direction.frame_octets;
    words[at + 2] = least_number32(direction.packet_length);
    words[at + 3] = greatest_number32(direction.packet_length);
    words[at + 4] = flags.fin;
    words[at + 5] = flags.syn;
    words[at + 6] = flags.rst;
    words[at + 7] = flags.psh;
    words[at + 8] = flags.ack;
    words[at + 9] = flags.urg;
    words[at + 10] = flags.ece;
    words[at + 11] = flags.cwr;
    words[at + 12] = flags.ns;
}

// The words that stand for the record.
pub fn words_of(record: FlowRecord) -> [u64; 37]
    ensures { result ≡ words_of «record» }
{
    let mut words = [0u64; 37];
    put_shared(
        &mut words,
        record.time,
        record.network,
        record.transport.icmp,
        record.capture,
    );
    put_direction(&mut words, 11, record.forward);
    put_direction(&mut words, 24, record.reverse);
    words
}
