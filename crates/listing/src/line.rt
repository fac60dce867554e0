//! Putting a line together: what a field of it is written as, and text put into a buffer at a place.
use std::fmt::Display;
use std::io::Write;
use std::{fmt, str};

/// Bytes in hex: '-' where there are none.
#[derive(Debug, Clone, Copy)]
pub struct Hex<'a>(pub &'a [u8]);

impl Display for Hex<'_> {
    fn fmt<W: fmt::Write>(&self, f: &mut fmt::Formatter<W>) -> fmt::Result {
        if self.0.is_empty() {
            return f.write_str("-");
        }
        // Many digits at once: written byte by byte they took more than all else that a run of a program does.
        let mut room = [0; 64];
        for bytes in self.0.chunks(32) {
            f.write_str(digits_of(bytes, &mut room)?)?;
        }
        Ok(())
    }
}

// The digits of at most 32 bytes.
fn digits_of<'a>(bytes: &[u8], room: &'a mut [u8; 64]) -> Result<&'a str, fmt::Error> {
    let count = bytes.len().saturating_mul(2);
    let digits = room.get_mut(..count).ok_or(fmt::Error)?;
    hex::encode_to_slice(bytes, digits).map_err(|_| fmt::Error)?;
    str::from_utf8(digits).map_err(|_| fmt::Error)
}

/// A value, or '-' where there is none.
#[derive(Debug, Clone, Copy)]
pub struct OrDash<T>(pub Option<T>);

impl<T: Display> Display for OrDash<T> {
    fn fmt<W: fmt::Write>(&self, f: &mut fmt::Formatter<W>) -> fmt::Result {
        match &self.0 {
            Some(value) => write!(f, "{value}"),
            None => f.write_str("-"),
        }
    }
}

/// Puts text into `out` at a place, and answers the place behind it. What does not fit is cut off.
pub fn put(out: &mut [u8], from: usize, text: &[u8]) -> usize {
    let mut at = from;
    let Some(room) = out.get_mut(from..) else {
        return at;
    };
    for (place, byte) in room.iter_mut().zip(text) {
        *place = *byte;
        at = at.saturating_add(1);
    }
    at
}

/// The same for a number, behind the text `before`.
pub fn put_decimal(out: &mut [u8], at: usize, before: &[u8], n: u64) -> usize {
    let at = put(out, at, before);
    put(out, at, decimal(n, &mut [0u8; 20]))
}

// The digits of a number, of which there are 20 at most.
fn decimal(n: u64, digits: &mut [u8; 20]) -> &[u8] {
    let mut rest = digits.as_mut_slice();
    let _ = write!(rest, "{n}");
    let left = rest.len();
    digits.get(..20usize.saturating_sub(left)).unwrap_or(&[])
}
