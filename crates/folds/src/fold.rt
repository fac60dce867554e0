//! Our own lines for packets that are counted on a record: `f RESOLUTION REASON DIRECTIONS PACKETS RECORD`.
use crate::cuts::record_cuts;
use crate::kind::Counted;
use crate::{packets, records};
use flow::host::{begin, observed};
use flow::record::Direction;
use flow::time::{EndReason, TimeResolution};
use forms::stop::Stop;
use listing::fields::{field, parse_hex};
use listing::list::Unanswered;
use listing::tally::Tally;
use std::alloc::Global;
use std::io::Write;
use wire::packet::{Packet, read_packet_at};
use wire::record::{Flow, read_record};

// The most bytes of packets that a line has.
const MOST_BATCH: usize = 1024;

// A packet that makes no flow, or that a flow refuses.
#[derive(Debug, Clone, Copy, PartialEq, Eq)]
struct NotCounted;

// The flow that the packets so far make, if there were any.
type Held = Result<Option<Flow>, NotCounted>;

/// Our line for packets and the record that the list has for them. Nothing is taken from that record: it is only compared with.
pub fn read(alloc: Global, line: &[u8], tally: &mut Tally<Counted>) -> Result<Vec<u8>, Unanswered> {
    let digits: Vec<u8> = field(line, 4)
        .iter()
        .copied()
        .filter(|digit| *digit != b',')
        .collect(alloc)?;
    let batch = parse_hex(alloc, digits.as_slice(), MOST_BATCH)?;
    let record = parse_hex(alloc, field(line, 5), records::MOST_BYTES)?;
    tally.add(Counted::Cuts, known_cuts(record.as_slice())?);
    let resolution = resolution_named(field(line, 1)).ok_or(Unanswered::UNREADABLE)?;
    let mut ours = Vec::new(alloc);
    write!(ours, "f")?;
    for number in 1..=3 {
        write!(ours, " ")?;
        ours.write_all(field(line, number))?;
    }
    match fold(&mut ours, field(line, 3), resolution, batch.as_slice())? {
        Ok(None) => write!(ours, " no packets")?,
        Ok(Some(flow)) => put_closed(&mut ours, flow, reason_named(field(line, 2)))?,
        Err(NotCounted) => write!(ours, " a packet is not counted")?,
    }
    Ok(ours)
}

// How many cuts the list's record has, which is first judged by itself.
fn known_cuts(record: &[u8]) -> Result<u64, Unanswered> {
    let Ok((known, used)) = read_record(record) else {
        return Err(Unanswered::Because("a record is not read"));
    };
    let is_form = used == record.len() && records::is_written_as(known, record);
    let cuts = if is_form { record_cuts(record) } else { None };
    cuts.ok_or(Unanswered::Because("a record is not read whole, written back, or Short where cut"))
}

fn resolution_named(name: &[u8]) -> Option<TimeResolution> {
    match name {
        b"0" => Some(TimeResolution::Microseconds),
        b"1" => Some(TimeResolution::Nanoseconds),
        _ => None,
    }
}

fn reason_named(name: &[u8]) -> Option<EndReason> {
    match name {
        b"idletimeout" => Some(EndReason::IdleTimeout),
        b"fin" => Some(EndReason::Fin),
        b"rst" => Some(EndReason::Rst),
        b"captureend" => Some(EndReason::CaptureEnd),
        _ => None,
    }
}

fn direction_named(letter: u8) -> Option<Direction> {
    match letter {
        b'f' => Some(Direction::Forward),
        b'r' => Some(Direction::Reverse),
        _ => None,
    }
}

// Counts each packet in its direction, and puts each packet's form behind our line.
fn fold(
    ours: &mut Vec<u8>,
    directions: &[u8],
    resolution: TimeResolution,
    batch: &[u8],
) -> Result<Held, Unanswered> {
    let mut held = Ok(None);
    let mut at = 0;
    for letter in directions {
        match read_packet_at(batch, at) {
            Ok((packet, next)) => {
                put_packet(ours, held, packet)?;
                held = held.and_then(|flow| counted(flow, *letter, resolution, packet).map(Some));
                at = next;
            }
            Err(Stop::Short) => {
                held = Err(NotCounted);
                write!(ours, " a packet is Short")?;
            }
            Err(Stop::Refused) => {
                held = Err(NotCounted);
                write!(ours, " a packet is refused")?;
            }
        }
    }
    Ok(held)
}

// A space before the first packet, a comma before each other.
fn put_packet(ours: &mut Vec<u8>, held: Held, packet: Packet) -> Result<(), Unanswered> {
    match held {
        Ok(None) => packets::put_form(ours, " ", packet),
        Ok(Some(_)) => packets::put_form(ours, ",", packet),
        Err(NotCounted) => Ok(()),
    }
}

// The first packet is forward.
fn counted(
    held: Option<Flow>,
    letter: u8,
    resolution: TimeResolution,
    packet: Packet,
) -> Result<Flow, NotCounted> {
    let direction = direction_named(letter).ok_or(NotCounted)?;
    match (held, direction) {
        (None, Direction::Forward) => begun(resolution, packet),
        (None, Direction::Reverse) => Err(NotCounted),
        (Some(flow), _) => counted_on(flow, direction, packet),
    }
}

fn begun(resolution: TimeResolution, packet: Packet) -> Result<Flow, NotCounted> {
    let key = packet.key;
    match begin(resolution, key.protocol, packet.facts) {
        Ok(record) => Ok(Flow { key, record }),
        Err(_) => Err(NotCounted),
    }
}

fn counted_on(flow: Flow, direction: Direction, packet: Packet) -> Result<Flow, NotCounted> {
    match observed(flow.record, direction, packet.facts) {
        Ok(record) => Ok(Flow {
            key: flow.key,
            record,
        }),
        Err(_) => Err(NotCounted),
    }
}

// The flow's record, closed, behind our line.
fn put_closed(ours: &mut Vec<u8>, flow: Flow, reason: Option<EndReason>) -> Result<(), Unanswered> {
    let Some(reason) = reason else {
        write!(ours, " no end reason")?;
        return Ok(());
    };
    let closed = Flow {
        key: flow.key,
        record: flow.record.close(reason),
    };
    records::put_form(ours, " ", closed)
}
