//! The number form: groups of seven bits, the low group first, the top bit set while more follow, the shortest form only.

ghost use Rattle.std.specs.Prelude.{◌≡◌, ◌+◌, ◌≤◌, ◌<◌, IfOk, leb, length};
ghost use Rattle.forms.specs.Number.{number, number_bytes};
ghost use Rattle.forms.specs.At.{read_at};
ghost use Rattle.forms.specs.Form.{found};
ghost use Rattle.forms.specs.Put.{Writes};
ghost use Rattle.forms.specs.Length.{Sized};
ghost use Rattle.forms.specs.Lone.{read_one, write_one};
ghost use Rattle.forms.specs.Nine.{four_more, is_nine, FourMore, FourRead, Nine, NineRead};
ghost use Rattle.forms.specs.Answers.{stands, answer_of, written_of};

use crate::refusal::Refusal;
use crate::stop::Stop;

/// A byte as a number.
pub fn wide(x: u8) -> u64
    ensures { (result ≡ x) × (result < 256) }
{
    x as u64
}

// The number at `at`, at most `most`, group after group. What is read so far is `value`; the groups still to come count `scale`
// each and make a number of at least `least`, which only the shortest form keeps, and at most `room`.
fn read_groups(s: &[u8], at: usize, most: u64) -> Result<(u64, usize), Stop>
    ensures { stands result ≡ read_at (number most) s.now at }
{
    let mut i = at;
    let mut least: u64 = 0;
    let mut room = most;
    let mut scale: u64 = 1;
    let mut value: u64 = 0;
    while i < s.len() {
        let b = wide(s[i]);
        if b < least {
            return Err(Stop::Refused);
        }
        if room < b {
            return Err(Stop::Refused);
        }
        if b < 128 {
            return Ok((value + scale * b, i + 1));
        }
        value = value + scale * (b - 128);
        scale = scale * 128;
        room = (room - b) / 128 + 1;
        least = 1;
        i += 1;
    }
    Err(Stop::Short)
}

/// The number at `at`, at most `most`. Most numbers are one byte, below 128: those take no loop.
#[tactic(auto, using(crate::specs::At::one_high, crate::specs::At::one_byte))]
#[inline(always)]
pub fn read_number(s: &[u8], at: usize, most: u64) -> Result<(u64, usize), Stop>
    ensures { stands result ≡ read_at (number most) s.now at }
{
    if at < s.len() {
        let b = wide(s[at]);
        if b < 128 {
            if most < b {
                return Err(Stop::Refused);
            }
            return Ok((b, at + 1));
        }
    }
    read_groups(s, at, most)
}

// Whether the four bytes from `at` on are groups that more follow.
#[tactic(auto, using(crate::specs::Nine::four_tested))]
fn four_more(s: &[u8], at: usize) -> bool
    requires { at + 4 ≤ length s.now }
    ensures { result ≡ four_more s.now at }
{
    (128 <= s[at]) & (128 <= s[at + 1]) & (128 <= s[at + 2]) & (128 <= s[at + 3])
}

// What they count.
#[tactic(auto, using(crate::specs::Nine::four_read))]
fn four_groups(s: &[u8], at: usize) -> u64
    requires at_in_bounds { at + 4 ≤ length s.now }
    requires four_more { FourMore s.now at }
    ensures { FourRead s.now at result }
{
    let a = wide(s[at]) - 128;
    let b = wide(s[at + 1]) - 128;
    let c = wide(s[at + 2]) - 128;
    let d = wide(s[at + 3]) - 128;
    a + 128 * b + 16384 * c + 2097152 * d
}

// Whether the nine bytes from `at` on are a number of nine groups.
#[tactic(auto, using(crate::specs::Nine::nine_short, crate::specs::Nine::nine_tested))]
fn is_nine(s: &[u8], at: usize) -> bool
    ensures { result ≡ is_nine s.now at }
{
    if s.len() < at {
        return false;
    }
    if s.len() - at < 9 {
        return false;
    }
    four_more(s, at) & four_more(s, at + 4) & (0 < s[at + 8]) & (s[at + 8] < 128)
}

// What they count.
#[tactic(auto, using(crate::specs::Nine::nine_read))]
fn nine_groups(s: &[u8], at: usize) -> u64
    requires { Nine s.now at }
    ensures { NineRead s.now at result }
{
    let low = four_groups(s, at);
    let high = four_groups(s, at + 4);
    let last = wide(s[at + 8]);
    low + 268435456 * (high + 268435456 * last)
}

/// The number at `at`, of any size. Nanoseconds since 1970 take nine groups, from 1972 to 2262: those are read at once.
pub fn read_u64(s: &[u8], at: usize) -> Result<(u64, usize), Stop>
    ensures { stands result ≡ read_at (number 18446744073709551615) s.now at }
{
    if is_nine(s, at) {
        return Ok((nine_groups(s, at), at + 9));
    }
    read_number(s, at, 0xffff_ffff_ffff_ffff)
}

/// The number at the front, at most `most`: `bytes` is left at what stands behind it.
#[tactic(auto, using(crate::proofs::Found::front_got, crate::proofs::Found::front_stop, crate::proofs::Found::front_inside, crate::proofs::Found::front_most))]
#[inline(always)]
pub fn read_bounded(bytes: &mut &[u8], most: u64) -> Result<u64, Stop>
    ensures form { found result bytes.new.now ≡ (number most).read bytes.old.now }
    ensures most { IfOk result (λ v. v ≤ most) }
{
    let (value, end) = read_number(bytes, 0, most)?;
    *bytes = &bytes[end..];
    Ok(value)
}

/// How many bytes a number takes: one for each seven bits up to its highest set bit.
#[tactic(auto, using(crate::specs::Length::sized_zero, crate::specs::Length::sized_bits))]
pub fn number_len(v: u64) -> usize
    ensures { Sized (number_bytes v) 10 result }
{
    if v == 0 {
        return 1;
    }
    let bits = 64 - u64::leading_zeros(v);
    ((bits + 6) / 7) as usize
}

/// Writes a number from `at` on, and says where it ends.
pub fn store_number(out: &mut [u8], at: usize, value: u64) -> usize
    requires { at + length (number_bytes value) ≤ length out.old }
    ensures { Writes at (number_bytes value) out.old out.new result }
{
    let mut at = at;
    let mut rest = value;
    while 128 <= rest {
        out[at] = (rest % 128 + 128) as u8;
        rest /= 128;
        at += 1;
    }
    out[at] = rest as u8;
    at + 1
}

/// The number, at most `most`, that the buffer begins with.
pub fn read_lone_number(s: &[u8], most: u64) -> Result<(u64, usize), Refusal>
    ensures { answer_of result ≡ read_one 4 (number most) s.now }
{
    if s.is_empty() {
        return Err(Refusal::Packet);
    }
    Ok(read_number(s, 0, most)?)
}

/// The number at the front of `out`, whose other bytes stay as they are; refused, all of them do.
#[tactic(auto, using(crate::specs::Answers::lone_above, crate::specs::Answers::lone_room))]
pub fn write_lone_number(out: &mut [u8], value: u64, most: u64) -> Result<usize, Refusal>
    ensures { (written_of result, out.new) ≡ write_one 4 (leb value most) (number_bytes value) out.old }
{
    if most < value {
        return Err(Refusal::Packet);
    }
    let n = number_len(value);
    if out.len() < n {
        return Err(Refusal::Room);
    }
    Ok(store_number(out, 0, value))
}
