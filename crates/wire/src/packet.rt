//! A packet, and its form in a buffer: at a place, or alone at the front.

ghost use Rattle.std.specs.Prelude.{◌≡◌, true};
ghost use Rattle.forms.specs.Answers.{answer_of, stands, written_of};
ghost use Rattle.forms.specs.At.{read_at};
ghost use Rattle.forms.specs.Length.{Sized};
ghost use Rattle.forms.specs.Lone.{read_one, write_one};
ghost use Rattle.forms.specs.Put.{Put};
ghost use Rattle.wire.specs.PacketForm.{facts, packet, flags_in_range};

use crate::parts::read_facts;
use flow::record::PacketFacts;
use forms::form::ByteForm;
use forms::lone::{put, read_at, read_lone, tail_of, write_lone};
use forms::refusal::Refusal;
use forms::stop::Stop;
use key::key::FlowKey;

/// What a probe hands in: a packet's contribution, and what it names.
#[derive(Clone, Copy, Debug, PartialEq, Eq)]
pub struct Packet {
    pub facts: PacketFacts,
    pub key: FlowKey,
}

/// The facts of the packet at `at`, and the place behind them: a batch's reader takes them and the key one behind the other, so that
/// it knows where the key lies.
#[tactic(auto, using(forms::proofs::Found::stands_got, forms::proofs::Found::stands_stop, forms::proofs::Found::left_less))]
pub fn read_facts_at(s: &[u8], at: usize) -> Result<(PacketFacts, usize), Stop>
    ensures { stands result ≡ read_at facts s.now at }
{
    let mut rest = tail_of(s, at);
    let value = read_facts(&mut rest)?;
    Ok((value, s.len() - rest.len()))
}

/// The packet at `at`, and the place behind it.
pub fn read_packet_at(s: &[u8], at: usize) -> Result<(Packet, usize), Stop>
    ensures { stands result ≡ read_at packet s.now at }
{
    read_at(s, at)
}

/// The packet that the buffer begins with, and how many bytes it takes.
pub fn read_packet(s: &[u8]) -> Result<(Packet, usize), Refusal>
    ensures { answer_of result ≡ read_one 4 packet s.now }
{
    read_lone(s)
}

/// How many bytes a packet takes.
pub fn packet_len(p: Packet) -> usize
    ensures { Sized (packet.write p) 208 result }
{
    p.len()
}

/// The packet's form from `place` on, and the place behind it.
pub fn write_packet_at(out: &mut [u8], place: Option<usize>, p: Packet) -> Option<usize>
    ensures { Put out.old place (packet.write p) out.new result }
{
    put(out, place, &p)
}

// Whether the TCP flags are a mask of nine bits: every other field is in range by its type.
fn flags_in_range(flags: Option<u16>) -> bool
    ensures { result ≡ flags_in_range flags }
{
    match flags {
        None => true,
        Some(mask) => mask < 512,
    }
}

/// The packet's form at the front of `out`, whose other bytes stay as they are; refused, all of them do.
#[tactic(auto, using(crate::specs::PacketLemmas::lone_within, crate::specs::PacketLemmas::lone_above))]
pub fn write_packet(out: &mut [u8], p: Packet) -> Result<usize, Refusal>
    ensures { (written_of result, out.new) ≡ write_one 4 (flags_in_range p.facts.tcp_flags) (packet.write p) out.old }
{
    if flags_in_range(p.facts.tcp_flags) {
        return write_lone(out, &p);
    }
    Err(Refusal::Packet)
}
