//! Taking a line of the list apart. Every function here answers for any bytes at all.
ghost use Rattle.std.specs.Prelude.{◌≤◌, IfOk, vec_len};

use crate::list::Unanswered;
use hex::FromHexError;
use std::alloc::Global;
use std::str;

/// The part of `s` from `from` up to `end`, or nothing where `s` has no such part.
pub fn part(s: &[u8], from: usize, end: usize) -> &[u8] {
    s.get(from..end).unwrap_or(&[])
}

/// The field of a line with this number, counted from 0, or nothing where there are fewer.
pub fn field(line: &[u8], number: usize) -> &[u8] {
    line.split(|byte| *byte == b' ').nth(number).unwrap_or(&[])
}

/// A number in decimal.
pub fn parse_decimal(field: &[u8]) -> Result<u64, Unanswered> {
    // `parse` takes a sign too.
    if !field.iter().all(|byte| byte.is_ascii_digit()) {
        return Err(Unanswered::UNREADABLE);
    }
    str::from_utf8(field)
        .ok()
        .and_then(|digits| digits.parse().ok())
        .ok_or(Unanswered::UNREADABLE)
}

/// At most so many bytes in hex, of small letters. '-' spells none.
pub fn parse_hex(alloc: Global, field: &[u8], most: usize) -> Result<Vec<u8>, Unanswered>
    ensures { IfOk result (λ bytes. vec_len bytes ≤ most) }
{
    match field {
        b"-" => Ok(Vec::new(alloc)),
        b"" => Err(Unanswered::UNREADABLE),
        digits => decode(alloc, digits, most),
    }
}

fn decode(alloc: Global, digits: &[u8], most: usize) -> Result<Vec<u8>, Unanswered>
    ensures { IfOk result (λ bytes. vec_len bytes ≤ most) }
{
    // `hex` takes capitals too.
    if digits.iter().any(|byte| byte.is_ascii_uppercase()) {
        return Err(Unanswered::UNREADABLE);
    }
    match hex::decode(alloc, digits) {
        Ok(bytes) if bytes.len() <= most => Ok(bytes),
        Err(FromHexError::OutOfMemory) => Err(Unanswered::OutOfMemory),
        _ => Err(Unanswered::UNREADABLE),
    }
}
