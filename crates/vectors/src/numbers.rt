//! Our own lines for numbers: `n MOST VALUE HEX`, `w MOST VALUE` and `r MOST HEX ANSWER`.
use forms::number::{read_lone_number, write_lone_number};
use forms::refusal::Refusal;
use listing::fields::{field, parse_decimal, parse_hex, part};
use listing::line::Hex;
use listing::list::Unanswered;
use std::alloc::Global;
use std::io::Write;

// The longest form that a line asks to read.
const MOST_BYTES: usize = 32;

/// Our line for a number that is to be written, whether or not it may be.
pub fn written(alloc: Global, line: &[u8]) -> Result<Vec<u8>, Unanswered> {
    let most = parse_decimal(field(line, 1))?;
    let value = parse_decimal(field(line, 2))?;
    // More than a number takes, and no zeros, so that a reader that goes on past the number is seen.
    let mut form = [0xffu8; 16];
    let mut ours = Vec::new(alloc);
    match write_lone_number(&mut form, value, most) {
        Ok(length) => put_read_back(&mut ours, most, &form, length)?,
        Err(Refusal::Packet) => write!(ours, "w {most} {value}")?,
        Err(_) => write!(ours, "no room for a number")?,
    }
    Ok(ours)
}

// The value in this line is the one that is read back from the form.
fn put_read_back(
    ours: &mut Vec<u8>,
    most: u64,
    form: &[u8],
    length: usize,
) -> Result<(), Unanswered> {
    match read_lone_number(form, most) {
        Ok((value, used)) if used == length => {
            let hex = Hex(part(form, 0, length));
            write!(ours, "n {most} {value} {hex}")?;
        }
        Ok(_) => write!(ours, "a number is read back with another length")?,
        Err(_) => write!(ours, "a number is not read back")?,
    }
    Ok(())
}

/// Our line for bytes from which a number is to be read.
pub fn read(alloc: Global, line: &[u8]) -> Result<Vec<u8>, Unanswered> {
    let most = parse_decimal(field(line, 1))?;
    let asked = parse_hex(alloc, field(line, 2), MOST_BYTES)?;
    let hex = Hex(asked.as_slice());
    let mut ours = Vec::new(alloc);
    write!(ours, "r {most} {hex} ")?;
    match read_lone_number(asked.as_slice(), most) {
        Ok(_) => write!(ours, "begins with a number")?,
        Err(refusal) => {
            let number = refusal.number();
            write!(ours, "{number}")?
        }
    }
    Ok(ours)
}
