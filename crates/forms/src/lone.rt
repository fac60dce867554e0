//! A form at a place of a buffer, and one alone at its front.

ghost use Rattle.std.specs.Prelude.{◌≡◌, ◌+◌, ◌<◌, ◌≤◌, Some, drop, length, true};
ghost use Rattle.forms.specs.Answers.{answer_of, stands, written_of};
ghost use Rattle.forms.specs.At.{read_at};
ghost use Rattle.forms.specs.Lone.{read_one, write_one};
ghost use Rattle.forms.specs.Put.{Put, stored};

use crate::form::ByteForm;
use crate::place::store_first;
use crate::refusal::Refusal;
use crate::stop::Stop;

/// The bytes from `at` on, none past the end.
pub fn tail_of(bytes: &[u8], at: usize) -> &[u8]
    ensures { result.now ≡ drop at bytes.now }
{
    if at < bytes.len() { &bytes[at..] } else { &[] }
}

/// The value at `at`, and where it ends.
#[tactic(auto, using(crate::proofs::Found::stands_got, crate::proofs::Found::stands_stop, crate::proofs::Found::left_less))]
pub fn read_at<T: ByteForm>(bytes: &[u8], at: usize) -> Result<(T, usize), Stop>
    ensures { stands result ≡ read_at T.form bytes.now at }
{
    let mut rest = tail_of(bytes, at);
    let value = T::read(&mut rest)?;
    Ok((value, bytes.len() - rest.len()))
}

/// The value that the buffer begins with, and how many bytes it takes.
pub fn read_lone<T: ByteForm>(bytes: &[u8]) -> Result<(T, usize), Refusal>
    ensures { answer_of result ≡ read_one 4 T.form bytes.now }
{
    if bytes.is_empty() {
        return Err(Refusal::Packet);
    }
    Ok(read_at(bytes, 0)?)
}

/// Writes the value at the front of `out`, whose other bytes stay as they are; without room, all of them do.
pub fn write_lone<T: ByteForm>(out: &mut [u8], value: &T) -> Result<usize, Refusal>
    ensures { (written_of result, out.new) ≡ write_one 4 true (T.form.write value.now) out.old }
{
    if out.len() < value.len() {
        return Err(Refusal::Room);
    }
    Ok(value.write(out, 0))
}

/// Writes the value from `place` on, and answers the place behind it. Without room as many of its bytes are stored as there is room
/// for, and the answer is `None`.
#[tactic(auto, using(crate::proofs::Written::writes_put, crate::proofs::Written::put_short))]
pub fn put<T: ByteForm>(out: &mut [u8], place: Option<usize>, value: &T) -> Option<usize>
    ensures { Put out.old place (T.form.write value.now) out.new result }
{
    let at = place?;
    let len = value.len();
    if at <= out.len() && len <= out.len() - at {
        return Some(value.write(out, at));
    }
    put_short(out, at, value);
    None
}

// What there is room for, of a value for which there is too little.
#[tactic(auto, using(crate::proofs::Written::buffered))]
fn put_short<T: ByteForm>(out: &mut [u8], at: usize, value: &T)
    requires short { length out.old < at + length (T.form.write value.now) }
    requires longest { length (T.form.write value.now) ≤ 512 }
    ensures { out.new ≡ stored out.old (Some at) (T.form.write value.now) }
{
    let mut bytes = [0; 512];
    let len = value.write(&mut bytes, 0);
    store_first(out, at, &bytes[..len]);
}
