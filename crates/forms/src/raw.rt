//! Bytes as they are.

ghost use Rattle.std.specs.Prelude.{◌≡◌, ◌+◌, ◌^◌, ◌<◌, ◌≤◌, [], ◌∷◌, IfOk, length};
ghost use Rattle.forms.specs.Answers.{stands};
ghost use Rattle.forms.specs.At.{read_at};
ghost use Rattle.forms.specs.Form.{byte, raw, found};
ghost use Rattle.forms.specs.Put.{Writes};
ghost use Rattle.forms.specs.Raw.{RawAt};

use crate::number::wide;
use crate::stop::Stop;

/// Reads one byte.
#[tactic(auto, using(crate::proofs::RawLaws::byte_first, crate::proofs::RawLaws::byte_last))]
#[inline(always)]
pub fn read_byte(bytes: &mut &[u8]) -> Result<u8, Stop>
    ensures { found result bytes.new.now ≡ byte.read bytes.old.now }
{
    match *bytes {
        [] => Err(Stop::Short),
        [first, rest @ ..] => {
            *bytes = rest;
            Ok(*first)
        }
    }
}

/// The n bytes from `at` on as one number, the first byte highest.
#[inline(always)]
pub fn raw_at(s: &[u8], at: usize, n: usize) -> u64
    requires { (1 ≤ n) × (n ≤ 8) × (at + n ≤ length s.now) }
    ensures { RawAt s.now at n result }
{
    let mut value = wide(s[at]);
    let mut i: usize = 1;
    while i < n {
        value = value * 256 + wide(s[at + i]);
        i += 1;
    }
    value
}

// The number at the front, and where it ends.
#[inline(always)]
fn raw_front(s: &[u8], n: usize) -> Result<(u64, usize), Stop>
    requires { (1 ≤ n) × (n ≤ 8) }
    ensures form { stands result ≡ read_at (raw n) s.now 0 }
    ensures below { IfOk result (λ x. x.0 < 256 ^ n) }
{
    if s.len() < n {
        return Err(Stop::Short);
    }
    Ok((raw_at(s, 0, n), n))
}

/// Reads n bytes as one number, the first byte highest.
#[tactic(auto, using(crate::proofs::Found::front_got, crate::proofs::Found::front_stop, crate::proofs::Found::front_inside))]
#[inline(always)]
pub fn read_raw(bytes: &mut &[u8], n: usize) -> Result<u64, Stop>
    requires { (1 ≤ n) × (n ≤ 8) }
    ensures form { found result bytes.new.now ≡ (raw n).read bytes.old.now }
    ensures below { IfOk result (λ v. v < 256 ^ n) }
{
    let (value, end) = raw_front(bytes, n)?;
    *bytes = &bytes[end..];
    Ok(value)
}

/// Writes one byte at `at`, and says where it ends.
#[tactic(auto, using(crate::proofs::Written::writes_byte))]
pub fn store_byte(out: &mut [u8], at: usize, byte: u8) -> usize
    requires { at < length out.old }
    ensures { Writes at (byte ∷ []) out.old out.new result }
{
    out[at] = byte;
    at + 1
}

/// Writes the bytes from `at` on, and says where they end.
#[tactic(auto, unfolding(crate::specs::Put::written))]
pub fn store_bytes(out: &mut [u8], at: usize, bytes: &[u8]) -> usize
    requires { at + length bytes.now ≤ length out.old }
    ensures { Writes at bytes.now out.old out.new result }
{
    let end = at + bytes.len();
    out[at..end].copy_from_slice(bytes);
    end
}

/// Writes two raw bytes, the first highest.
#[tactic(auto, using(crate::specs::Form::raw_length))]
pub fn store_raw2(out: &mut [u8], at: usize, half: u16) -> usize
    requires { at + length ((raw 2).write half) ≤ length out.old }
    ensures { Writes at ((raw 2).write half) out.old out.new result }
{
    store_bytes(out, at, &half.to_be_bytes())
}

/// Writes four raw bytes, the first highest.
#[tactic(auto, using(crate::specs::Form::raw_length))]
pub fn store_raw4(out: &mut [u8], at: usize, word: u32) -> usize
    requires { at + length ((raw 4).write word) ≤ length out.old }
    ensures { Writes at ((raw 4).write word) out.old out.new result }
{
    store_bytes(out, at, &word.to_be_bytes())
}

/// Writes eight raw bytes, the first highest.
#[tactic(auto, using(crate::specs::Form::raw_length))]
pub fn store_raw8(out: &mut [u8], at: usize, long: u64) -> usize
    requires { at + length ((raw 8).write long) ≤ length out.old }
    ensures { Writes at ((raw 8).write long) out.old out.new result }
{
    store_bytes(out, at, &long.to_be_bytes())
}
