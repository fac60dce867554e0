//! Our own lines for packets: `p HEX` and `y HEX ANSWER`.
use crate::cuts::packet_cuts;
use crate::kind::Counted;
use forms::refusal::Refusal;
use listing::fields::{field, parse_hex, part};
use listing::line::Hex;
use listing::list::Unanswered;
use listing::tally::Tally;
use std::alloc::Global;
use std::io::Write;
use wire::packet::{Packet, read_packet, write_packet};

// The most bytes that a line asks to read.
const MOST_BYTES: usize = 256;

/// Our line for bytes from which a packet is to be read: its form, or why there is none.
pub fn read(alloc: Global, line: &[u8], tally: &mut Tally<Counted>) -> Result<Vec<u8>, Unanswered> {
    let asked = parse_hex(alloc, field(line, 1), MOST_BYTES)?;
    let hex = Hex(asked.as_slice());
    let mut ours = Vec::new(alloc);
    match read_packet(asked.as_slice()) {
        Ok((packet, used)) => {
            // What was read, which is less than what was asked where other bytes follow.
            let cuts = packet_cuts(part(asked.as_slice(), 0, used)).ok_or(Unanswered::Because(
                "a cut packet is not Short",
            ))?;
            tally.add(Counted::Cuts, cuts);
            put_form(&mut ours, "p ", packet)?;
        }
        Err(refusal) => {
            let number = refusal.number();
            write!(ours, "y {hex} {number}")?
        }
    }
    Ok(ours)
}

/// A packet's form, behind the text `before`.
pub fn put_form(ours: &mut Vec<u8>, before: &str, packet: Packet) -> Result<(), Unanswered> {
    // Just as much as the longest packet takes.
    let mut form = [0u8; 103];
    match write_packet(&mut form, packet) {
        Ok(length) => {
            let hex = Hex(part(&form, 0, length));
            write!(ours, "{before}{hex}")?;
        }
        Err(Refusal::Packet) => write!(ours, " a packet out of range")?,
        Err(_) => write!(ours, " no room for a packet")?,
    }
    Ok(())
}
