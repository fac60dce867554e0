//! The key form in a buffer: at a place, or alone at the front.

ghost use Rattle.std.specs.Prelude.{◌≡◌, true};
ghost use Rattle.forms.specs.Answers.{answer_of, stands, written_of};
ghost use Rattle.forms.specs.At.{read_at};
ghost use Rattle.forms.specs.Length.{Sized};
ghost use Rattle.forms.specs.Lone.{read_one, write_one};
ghost use Rattle.forms.specs.Put.{Put};
ghost use Rattle.key.specs.KeyForm.{key};

use crate::key::FlowKey;
use forms::form::ByteForm;
use forms::lone::{put, read_at, read_lone, write_lone};
use forms::refusal::Refusal;
use forms::stop::Stop;

/// The key at `at`, and the place behind it.
pub fn read_key_at(s: &[u8], at: usize) -> Result<(FlowKey, usize), Stop>
    ensures { stands result ≡ read_at key s.now at }
{
    read_at(s, at)
}

/// The key that the buffer begins with, and how many bytes it takes.
pub fn read_key(s: &[u8]) -> Result<(FlowKey, usize), Refusal>
    ensures { answer_of result ≡ read_one 4 key s.now }
{
    read_lone(s)
}

/// How many bytes a key takes.
pub fn key_len(k: FlowKey) -> usize
    ensures { Sized (key.write k) 128 result }
{
    k.len()
}

/// The key's form from `place` on, and the place behind it.
pub fn write_key_at(out: &mut [u8], place: Option<usize>, k: FlowKey) -> Option<usize>
    ensures { Put out.old place (key.write k) out.new result }
{
    put(out, place, &k)
}

/// The key's form at the front of `out`, whose other bytes stay as they are; without room, all of them do. Every key has a form.
pub fn write_key(out: &mut [u8], k: FlowKey) -> Result<usize, Refusal>
    ensures { (written_of result, out.new) ≡ write_one 4 true (key.write k) out.old }
{
    write_lone(out, &k)
}
