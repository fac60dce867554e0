//! Our own lines for what is derived from a record: `t RECORD PACKETS OCTETS BOTHWAYS DURATION`.
use crate::records::MOST_BYTES;
use listing::fields::{field, parse_hex};
use listing::line::Hex;
use listing::list::Unanswered;
use std::alloc::Global;
use std::io::Write;
use wire::record::read_record;

pub fn read(alloc: Global, line: &[u8]) -> Result<Vec<u8>, Unanswered> {
    let asked = parse_hex(alloc, field(line, 1), MOST_BYTES)?;
    let Ok((flow, _)) = read_record(asked.as_slice()) else {
        return Err(Unanswered::Because("a record is not read"));
    };
    let record = flow.record;
    let time = record.time;
    let duration = time.duration().0;
    let packets = record.packets();
    let octets = record.frame_octets();
    let both_ways = u8::from(record.is_bidirectional());
    let hex = Hex(asked.as_slice());
    let mut ours = Vec::new(alloc);
    write!(ours, "t {hex} {packets} {octets} {both_ways} {duration}")?;
    Ok(ours)
}
