//! Our own lines for records: `r HEX` and `x HEX ANSWER`.
use crate::cuts::record_cuts;
use crate::kind::Counted;
use forms::refusal::Refusal;
use listing::fields::{field, parse_hex, part};
use listing::line::Hex;
use listing::list::Unanswered;
use listing::tally::Tally;
use std::alloc::Global;
use std::io::Write;
use wire::record::{Flow, read_record, write_record};

/// The most bytes of a record that a line has.
pub const MOST_BYTES: usize = 512;

// Just as much as a record is allowed to take.
const MOST_FORM: usize = 358;

/// Our line for bytes from which a record is to be read: its form, or why there is none.
pub fn read(alloc: Global, line: &[u8], tally: &mut Tally<Counted>) -> Result<Vec<u8>, Unanswered> {
    let asked = parse_hex(alloc, field(line, 1), MOST_BYTES)?;
    let hex = Hex(asked.as_slice());
    let mut ours = Vec::new(alloc);
    match read_record(asked.as_slice()) {
        Ok((flow, used)) => {
            // What was read, which is less than what was asked where other bytes follow.
            let cuts = record_cuts(part(asked.as_slice(), 0, used)).ok_or(Unanswered::Because(
                "a cut record is not Short",
            ))?;
            tally.add(Counted::Cuts, cuts);
            put_form(&mut ours, "r ", flow)?;
        }
        Err(refusal) => {
            let number = refusal.number();
            write!(ours, "x {hex} {number}")?
        }
    }
    Ok(ours)
}

/// A record's form, behind the text `before`.
pub fn put_form(ours: &mut Vec<u8>, before: &str, flow: Flow) -> Result<(), Unanswered> {
    let mut form = [0u8; MOST_FORM];
    match write_record(&mut form, flow) {
        Ok(length) => {
            let hex = Hex(part(&form, 0, length));
            write!(ours, "{before}{hex}")?;
        }
        Err(Refusal::Damaged) => write!(ours, " a damaged record")?,
        Err(_) => write!(ours, " no room for a record")?,
    }
    Ok(())
}

/// Whether the record is written as these bytes.
pub fn is_written_as(flow: Flow, bytes: &[u8]) -> bool {
    let mut form = [0u8; MOST_FORM];
    match write_record(&mut form, flow) {
        Ok(length) => part(&form, 0, length) == bytes,
        Err(_) => false,
    }
}
