//! Bytes that are no value with a form, written one behind the other. Each writer takes the place where the one before it ended, and
//! stores nothing more once there is no room.

ghost use Rattle.std.specs.Prelude.{◌≡◌, ◌+◌, ◌<◌, ◌^◌, [], ◌∷◌, Some, length};
ghost use Rattle.forms.specs.Form.{raw};
ghost use Rattle.forms.specs.Put.{Put, stored};

use crate::raw::store_bytes;

/// Writes the bytes from `place` on, and answers the place behind them. Without room as many are stored as there is room for, and the
/// answer is `None`.
#[tactic(auto, using(crate::proofs::Written::writes_put))]
pub fn put_bytes(out: &mut [u8], place: Option<usize>, bytes: &[u8]) -> Option<usize>
    ensures { Put out.old place bytes.now out.new result }
{
    let at = place?;
    if at <= out.len() && bytes.len() <= out.len() - at {
        return Some(store_bytes(out, at, bytes));
    }
    store_first(out, at, bytes);
    None
}

// The bytes that there is room for, of more.
#[tactic(auto, using(crate::proofs::Written::first_stored, crate::proofs::Written::none_stored))]
pub(crate) fn store_first(out: &mut [u8], at: usize, bytes: &[u8])
    requires { length out.old < at + length bytes.now }
    ensures { out.new ≡ stored out.old (Some at) bytes.now }
{
    if at < out.len() {
        let room = out.len() - at;
        store_bytes(out, at, &bytes[..room]);
    }
}

/// Writes one byte.
pub fn write_byte(out: &mut [u8], place: Option<usize>, byte: u8) -> Option<usize>
    ensures { Put out.old place (byte ∷ []) out.new result }
{
    put_bytes(out, place, &[byte])
}

/// Writes two raw bytes, the first highest.
pub fn write_raw2(out: &mut [u8], place: Option<usize>, value: u64) -> Option<usize>
    requires { value < 256 ^ 2 }
    ensures { Put out.old place ((raw 2).write value) out.new result }
{
    put_bytes(out, place, &(value as u16).to_be_bytes())
}

/// Writes four raw bytes, the first highest.
pub fn write_raw4(out: &mut [u8], place: Option<usize>, value: u64) -> Option<usize>
    requires { value < 256 ^ 4 }
    ensures { Put out.old place ((raw 4).write value) out.new result }
{
    put_bytes(out, place, &(value as u32).to_be_bytes())
}

/// Writes eight raw bytes, the first highest.
pub fn write_raw8(out: &mut [u8], place: Option<usize>, value: u64) -> Option<usize>
    ensures { Put out.old place ((raw 8).write value) out.new result }
{
    put_bytes(out, place, &value.to_be_bytes())
}
