//! A flow and its record form: the fields, their numbers, and the form in a buffer.

ghost use Rattle.std.specs.Prelude.{◌≡◌, true};
ghost use Rattle.forms.specs.Answers.{answer_of, written_of};
ghost use Rattle.forms.specs.At.{read_at};
ghost use Rattle.forms.specs.Form.{got};
ghost use Rattle.forms.specs.Length.{Sized};
ghost use Rattle.forms.specs.Lone.{write_one};
ghost use Rattle.forms.specs.Numbers.{optional_of};
ghost use Rattle.forms.specs.Optional.{number8, number32};
ghost use Rattle.forms.specs.Put.{Put};
ghost use Rattle.flow.specs.Sound.{sound_record};
ghost use Rattle.wire.specs.RecordForm.{reason_number, reason_from, reason_of, state_number, state_from, resolution_number, resolution_from, bit_number, bit_from, head_fields, direction_fields, tail_fields, fields, fields_of, least_of, greatest_of, least_of8, greatest_of8, least_of32, greatest_of32, range_from, paired, direction_from, flow_from, paired_fields, record_bytes, record_answer, read_record, bytes_written, filled_record};

use flow::record::FlowRecord;
use flow::sound::sound;
use flow::time::{EndReason, FlowTime, Nanos, StartState, TimeResolution};
use forms::form::ByteForm;
use forms::lone::{put, read_at, write_lone};
use forms::numbers::{Number, optional_number};
use forms::refusal::Refusal;
use forms::stop::Stop;
use key::key::FlowKey;
use stats::counts::{CaptureStats, DirectionStats, NetworkStats, TcpFlagCounts, TransportStats};
use stats::range::Range;

/// A flow: what identifies it, alongside what it accumulated.
#[derive(Clone, Copy, Debug, PartialEq, Eq)]
pub struct Flow {
    pub key: FlowKey,
    pub record: FlowRecord,
}

// ---- the form's fields, where they are not yet known to make a record: the bounds of a range may be there one without the other

/// When the flow was, and why it ended.
#[derive(Clone, Copy, Debug, PartialEq, Eq)]
pub struct HeadFields {
    pub reason: EndReason,
    pub state: StartState,
    pub resolution: TimeResolution,
    pub start: u64,
    pub end: u64,
}

/// What was seen in one direction.
#[derive(Clone, Copy, Debug, PartialEq, Eq)]
pub struct DirectionFields {
    pub packets: u64,
    pub frame_octets: u64,
    pub least: Option<u32>,
    pub greatest: Option<u32>,
    pub flags: TcpFlagCounts,
}

/// What was seen in both.
#[derive(Clone, Copy, Debug, PartialEq, Eq)]
pub struct TailFields {
    pub least_ttl: Option<u8>,
    pub greatest_ttl: Option<u8>,
    pub dscp: Option<u8>,
    pub ecn: Option<u8>,
    pub icmp: Option<u16>,
    pub captured_octets: u64,
    pub truncated: bool,
}

/// All fields of a record.
#[derive(Clone, Copy, Debug, PartialEq, Eq)]
pub struct RecordFields {
    pub head: HeadFields,
    pub forward: DirectionFields,
    pub reverse: DirectionFields,
    pub tail: TailFields,
    pub key: FlowKey,
}

// ---- numbers that stand for cases

/// The reason that a number stands for.
#[tactic(auto, using(crate::specs::RecordRead::last_reason))]
pub fn reason_from(number: u64) -> EndReason
    ensures { result ≡ reason_from number }
{
    match number {
        0 => EndReason::IdleTimeout,
        1 => EndReason::Fin,
        2 => EndReason::Rst,
        _ => EndReason::CaptureEnd,
    }
}

/// The state that a number stands for.
#[tactic(auto, using(crate::specs::RecordRead::last_state))]
pub fn state_from(number: u64) -> StartState
    ensures { result ≡ state_from number }
{
    match number {
        0 => StartState::SynObserved,
        1 => StartState::MidStream,
        _ => StartState::NotApplicable,
    }
}

/// The resolution that a number stands for.
#[tactic(auto, using(crate::specs::RecordRead::last_resolution))]
pub fn resolution_from(number: u64) -> TimeResolution
    ensures { result ≡ resolution_from number }
{
    match number {
        0 => TimeResolution::Microseconds,
        _ => TimeResolution::Nanoseconds,
    }
}

#[tactic(auto, using(crate::specs::RecordRead::last_bit))]
pub(crate) fn bit_from(number: u64) -> bool
    ensures { result ≡ bit_from number }
{
    match number {
        0 => false,
        _ => true,
    }
}

/// The number that stands for a reason, 0 for none.
pub fn reason_number(reason: Option<EndReason>) -> u64
    ensures { result ≡ reason_number (reason_of reason) }
{
    match reason {
        None => 0,
        Some(present) => match present {
            EndReason::IdleTimeout => 0,
            EndReason::Fin => 1,
            EndReason::Rst => 2,
            EndReason::CaptureEnd => 3,
        },
    }
}

/// The number that stands for a state.
pub fn state_number(state: StartState) -> u64
    ensures { result ≡ state_number state }
{
    match state {
        StartState::SynObserved => 0,
        StartState::MidStream => 1,
        StartState::NotApplicable => 2,
    }
}

/// The number that stands for a resolution.
pub fn resolution_number(resolution: TimeResolution) -> u64
    ensures { result ≡ resolution_number resolution }
{
    match resolution {
        TimeResolution::Microseconds => 0,
        TimeResolution::Nanoseconds => 1,
    }
}

/// The number that stands for a bit.
pub fn bit_number(bit: bool) -> u64
    ensures { result ≡ bit_number bit }
{
    if bit { 1 } else { 0 }
}

// ---- from fields to a flow, and back

// The range of two bounds, where both are there.
fn range_from<T: Copy>(least: Option<T>, greatest: Option<T>) -> Option<Range<T>>
    ensures { result ≡ range_from least greatest }
{
    match (least, greatest) {
        (Some(min), Some(max)) => Some(Range { min, max }),
        _ => None,
    }
}

// Both bounds are there, or neither.
fn paired<T: Copy>(least: Option<T>, greatest: Option<T>) -> bool
    ensures { result ≡ paired least greatest }
{
    least.is_some() == greatest.is_some()
}

fn least_of<T: Copy>(range: Option<Range<T>>) -> Option<T>
    ensures { result ≡ least_of range }
{
    match range {
        None => None,
        Some(bounds) => Some(bounds.min),
    }
}

fn greatest_of<T: Copy>(range: Option<Range<T>>) -> Option<T>
    ensures { result ≡ greatest_of range }
{
    match range {
        None => None,
        Some(bounds) => Some(bounds.max),
    }
}

#[tactic(auto, unfolding(crate::specs::RecordForm::paired_fields))]
fn paired_fields(w: RecordFields) -> bool
    ensures { result ≡ paired_fields w }
{
    paired(w.forward.least, w.forward.greatest)
        && paired(w.reverse.least, w.reverse.greatest)
        && paired(w.tail.least_ttl, w.tail.greatest_ttl)
}

fn direction_from(d: DirectionFields) -> DirectionStats
    ensures { result ≡ direction_from d }
{
    DirectionStats {
        packets: d.packets,
        frame_octets: d.frame_octets,
        packet_length: range_from(d.least, d.greatest),
        tcp_flags: d.flags,
    }
}

#[tactic(auto, unfolding(crate::specs::RecordForm::flow_from))]
fn flow_from(w: RecordFields) -> Flow
    ensures { result ≡ flow_from w }
{
    Flow {
        key: w.key,
        record: FlowRecord {
            time: FlowTime {
                start: Nanos(w.head.start),
                end: Nanos(w.head.end),
                resolution: w.head.resolution,
                start_state: w.head.state,
                end_reason: Some(w.head.reason),
            },
            forward: direction_from(w.forward),
            reverse: direction_from(w.reverse),
            network: NetworkStats {
                ttl: range_from(w.tail.least_ttl, w.tail.greatest_ttl),
                dscp: w.tail.dscp,
                ecn: w.tail.ecn,
            },
            transport: TransportStats { icmp: w.tail.icmp },
            capture: CaptureStats {
                captured_octets: w.tail.captured_octets,
                truncated: w.tail.truncated,
            },
        },
    }
}

fn head_fields(time: FlowTime) -> HeadFields
    ensures { result ≡ head_fields time }
{
    HeadFields {
        reason: time.end_reason.unwrap_or(EndReason::IdleTimeout),
        state: time.start_state,
        resolution: time.resolution,
        start: time.start.0,
        end: time.end.0,
    }
}

fn direction_fields(d: DirectionStats) -> DirectionFields
    ensures { result ≡ direction_fields d }
{
    DirectionFields {
        packets: d.packets,
        frame_octets: d.frame_octets,
        least: least_of(d.packet_length),
        greatest: greatest_of(d.packet_length),
        flags: d.tcp_flags,
    }
}

fn tail_fields(
    network: NetworkStats,
    transport: TransportStats,
    capture: CaptureStats,
) -> TailFields
    ensures { result ≡ tail_fields network transport capture }
{
    TailFields {
        least_ttl: least_of(network.ttl),
        greatest_ttl: greatest_of(network.ttl),
        dscp: network.dscp,
        ecn: network.ecn,
        icmp: transport.icmp,
        captured_octets: capture.captured_octets,
        truncated: capture.truncated,
    }
}

#[tactic(auto, unfolding(crate::specs::RecordForm::fields_of))]
fn fields_of(f: Flow) -> RecordFields
    ensures { result ≡ fields_of f }
{
    let record = f.record;
    RecordFields {
        head: head_fields(record.time),
        forward: direction_fields(record.forward),
        reverse: direction_fields(record.reverse),
        tail: tail_fields(record.network, record.transport, record.capture),
        key: f.key,
    }
}

// ---- the numbers that stand for the bounds of a range

fn least_number<T: Number>(range: Option<Range<T>>) -> u64
    ensures { result ≡ optional_of T.number_of (least_of range) }
{
    optional_number(least_of(range))
}

fn greatest_number<T: Number>(range: Option<Range<T>>) -> u64
    ensures { result ≡ optional_of T.number_of (greatest_of range) }
{
    optional_number(greatest_of(range))
}

/// The number that stands for the least of 32 bits.
#[tactic(auto, using(forms::specs::NumberLaws::same32))]
pub fn least_number32(range: Option<Range<u32>>) -> u64
    ensures { result ≡ number32 (least_of32 range) }
{
    least_number(range)
}

/// The number that stands for the greatest of 32 bits.
#[tactic(auto, using(forms::specs::NumberLaws::same32))]
pub fn greatest_number32(range: Option<Range<u32>>) -> u64
    ensures { result ≡ number32 (greatest_of32 range) }
{
    greatest_number(range)
}

/// The number that stands for the least of 8 bits.
#[tactic(auto, using(forms::specs::NumberLaws::same8))]
pub fn least_number8(range: Option<Range<u8>>) -> u64
    ensures { result ≡ number8 (least_of8 range) }
{
    least_number(range)
}

/// The number that stands for the greatest of 8 bits.
#[tactic(auto, using(forms::specs::NumberLaws::same8))]
pub fn greatest_number8(range: Option<Range<u8>>) -> u64
    ensures { result ≡ number8 (greatest_of8 range) }
{
    greatest_number(range)
}

// ---- the record in a buffer

// The flow of fields that were read, where they are sound.
#[tactic(auto, unfolding(crate::specs::RecordForm::sound_fields))]
fn sound_record(w: RecordFields, next: usize) -> Result<(Flow, usize), Refusal>
    ensures { answer_of result ≡ record_answer (got w next) }
{
    let flow = flow_from(w);
    if !paired_fields(w) {
        return Err(Refusal::Record);
    }
    if !sound(flow.record) {
        return Err(Refusal::Record);
    }
    Ok((flow, next))
}

/// The record at `at`, and the place behind it.
pub fn read_record_at(s: &[u8], at: usize) -> Result<(Flow, usize), Refusal>
    ensures { answer_of result ≡ record_answer (read_at fields s.now at) }
{
    match read_at(s, at) {
        Ok((w, next)) => sound_record(w, next),
        Err(Stop::Short) => Err(Refusal::Short),
        Err(Stop::Refused) => Err(Refusal::Record),
    }
}

/// The record that the buffer begins with, and how many bytes it takes.
pub fn read_record(s: &[u8]) -> Result<(Flow, usize), Refusal>
    ensures { answer_of result ≡ read_record s.now }
{
    if s.is_empty() {
        return Err(Refusal::Record);
    }
    read_record_at(s, 0)
}

/// How many bytes a flow's record takes.
#[tactic(auto, unfolding(crate::specs::RecordForm::record_bytes))]
pub fn record_len(f: Flow) -> usize
    ensures { Sized (record_bytes f) 473 result }
{
    fields_of(f).len()
}

/// The record's form from `place` on, and the place behind it.
#[tactic(auto, unfolding(crate::specs::RecordForm::record_bytes))]
pub fn write_record_at(out: &mut [u8], place: Option<usize>, f: Flow) -> Option<usize>
    ensures { Put out.old place (record_bytes f) out.new result }
{
    put(out, place, &fields_of(f))
}

/// The record's form at the front of `out`, whose other bytes stay as they are; refused, all of them do.
#[tactic(auto, using(crate::specs::RecordWrite::lone_sound_lem, crate::specs::RecordWrite::lone_damaged), unfolding(crate::specs::RecordForm::record_bytes))]
pub fn write_record(out: &mut [u8], f: Flow) -> Result<usize, Refusal>
    ensures { (written_of result, out.new) ≡ write_one 3 (sound_record f.«record») (record_bytes f) out.old }
{
    if sound(f.record) {
        return write_lone(out, &fields_of(f));
    }
    Err(Refusal::Damaged)
}

fn bytes_written(wrote: Result<usize, Refusal>) -> usize
    ensures { result ≡ bytes_written wrote }
{
    wrote.unwrap_or(0)
}

/// The same, and the part of `out` that the record fills; refused, the empty part, which no record fills.
pub fn filled_record(out: &mut [u8], f: Flow) -> &mut [u8]
    ensures { result.now ≡ filled_record f out.old }
{
    let wrote = write_record(out, f);
    let n = bytes_written(wrote);
    &mut out[..n]
}
