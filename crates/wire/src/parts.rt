//! The forms of packets and records, part by part. The facts of a packet and the flag counts are types of other crates, so they
//! have functions in place of the trait.
#![tactic(auto, unfolding(crate::specs::PacketForm::facts, crate::specs::PacketForm::packet, crate::specs::RecordForm::schema, crate::specs::RecordForm::reason, crate::specs::RecordForm::state, crate::specs::RecordForm::resolution, crate::specs::RecordForm::truncated, crate::specs::RecordForm::head, crate::specs::RecordForm::flags, crate::specs::RecordForm::direction, crate::specs::RecordForm::tail, crate::specs::RecordForm::fields, forms::specs::Form::one, forms::specs::Form::over, forms::specs::Form::pair, forms::specs::Form::follow, forms::specs::Form::with_first, forms::specs::Optional::optional16, forms::specs::Number::number))]

ghost use Rattle.std.specs.Prelude.{◌≡◌, ◌+◌, ◌≤◌, None, Some, length};
ghost use Rattle.std.proofs.Common.{rules};
ghost use Rattle.forms.specs.Form.{found};
ghost use Rattle.forms.specs.Number.{number};
ghost use Rattle.forms.specs.Put.{Writes};
ghost use Rattle.wire.specs.PacketForm.{facts, packet};
ghost use Rattle.wire.specs.RecordForm.{schema, head, flags, direction, tail, fields};

use crate::packet::Packet;
use crate::record::{
    DirectionFields, HeadFields, RecordFields, TailFields, bit_from, bit_number, reason_from,
    reason_number, resolution_from, resolution_number, state_from, state_number,
};
use flow::record::PacketFacts;
use flow::time::Nanos;
use forms::form::ByteForm;
use forms::number::{read_bounded, store_number};
use forms::optional::opt_u16_field;
use forms::raw::{read_byte, store_byte};
use forms::stop::Stop;
use key::key::FlowKey;
use stats::counts::TcpFlagCounts;

// ---- a packet: time; frame octets, captured octets; TTL; TCP flags; ICMP; DSCP, ECN; key

/// Reads the facts of a packet. TCP flags are a mask of nine bits.
pub(crate) fn read_facts(bytes: &mut &[u8]) -> Result<PacketFacts, Stop>
    ensures { found result bytes.new.now ≡ facts.read bytes.old.now }
{
    Ok(PacketFacts {
        time: Nanos(u64::read(bytes)?),
        frame_octets: u32::read(bytes)?,
        captured_octets: u32::read(bytes)?,
        ttl: Option::read(bytes)?,
        tcp_flags: opt_u16_field(bytes, 511)?,
        icmp: Option::read(bytes)?,
        dscp: Option::read(bytes)?,
        ecn: Option::read(bytes)?,
    })
}

fn facts_len(p: PacketFacts) -> usize
    ensures len { result ≡ length (facts.write p) }
    ensures longest { result ≤ 80 }
{
    p.time.0.len()
        + p.frame_octets.len()
        + p.captured_octets.len()
        + p.ttl.len()
        + p.tcp_flags.len()
        + p.icmp.len()
        + p.dscp.len()
        + p.ecn.len()
}

fn store_facts(out: &mut [u8], at: usize, p: PacketFacts) -> usize
    requires { at + length (facts.write p) ≤ length out.old }
    ensures { Writes at (facts.write p) out.old out.new result }
{
    let at = p.time.0.write(out, at);
    let at = p.frame_octets.write(out, at);
    let at = p.captured_octets.write(out, at);
    let at = p.ttl.write(out, at);
    let at = p.tcp_flags.write(out, at);
    let at = p.icmp.write(out, at);
    let at = p.dscp.write(out, at);
    p.ecn.write(out, at)
}

impl ByteForm for Packet {
    ghost form = { packet };

    ghost longest = { 208 };

    fn read(bytes: &mut &[u8]) -> Result<Packet, Stop> {
        Ok(Packet {
            facts: read_facts(bytes)?,
            key: FlowKey::read(bytes)?,
        })
    }

    fn len(&self) -> usize {
        facts_len(self.facts) + self.key.len()
    }

    fn write(&self, out: &mut [u8], at: usize) -> usize {
        let at = store_facts(out, at, self.facts);
        self.key.write(out, at)
    }

    ghost short = { Prim.search rules };
}

// ---- a record: schema, end reason, start state, resolution, start, end; for each direction packets, frame octets, length minimum
// and maximum, nine flag counts; TTL minimum and maximum; DSCP, ECN, ICMP; captured octets; truncated; key

// The schema, which is always 1.
#[tactic(auto, using(crate::proofs::Schema::schema_one, crate::proofs::Schema::schema_other, crate::proofs::Schema::schema_stop))]
fn read_schema(bytes: &mut &[u8]) -> Result<(), Stop>
    ensures { found result bytes.new.now ≡ schema.read bytes.old.now }
{
    match read_byte(bytes)? {
        1 => Ok(()),
        _ => Err(Stop::Refused),
    }
}

impl ByteForm for HeadFields {
    ghost form = { head };

    ghost longest = { 24 };

    fn read(bytes: &mut &[u8]) -> Result<HeadFields, Stop> {
        read_schema(bytes)?;
        Ok(HeadFields {
            reason: reason_from(read_bounded(bytes, 3)?),
            state: state_from(read_bounded(bytes, 2)?),
            resolution: resolution_from(read_bounded(bytes, 1)?),
            start: u64::read(bytes)?,
            end: u64::read(bytes)?,
        })
    }

    // The schema and each of the three cases take one byte.
    #[tactic(auto, using(crate::specs::RecordWrite::head_length), unfolding(forms::specs::Number::number))]
    fn len(&self) -> usize {
        4 + self.start.len() + self.end.len()
    }

    fn write(&self, out: &mut [u8], at: usize) -> usize {
        let at = store_byte(out, at, 1);
        let at = store_number(out, at, reason_number(Some(self.reason)));
        let at = store_number(out, at, state_number(self.state));
        let at = store_number(out, at, resolution_number(self.resolution));
        let at = self.start.write(out, at);
        self.end.write(out, at)
    }

    ghost short = { Prim.search rules };
}

// Reads a count or a sum. Most are small, so a number of nine groups is not looked for first, as a time's is.
#[inline(always)]
fn read_count(bytes: &mut &[u8]) -> Result<u64, Stop>
    ensures { found result bytes.new.now ≡ (number 18446744073709551615).read bytes.old.now }
{
    read_bounded(bytes, u64::MAX)
}

fn read_flags(bytes: &mut &[u8]) -> Result<TcpFlagCounts, Stop>
    ensures { found result bytes.new.now ≡ flags.read bytes.old.now }
{
    Ok(TcpFlagCounts {
        fin: read_count(bytes)?,
        syn: read_count(bytes)?,
        rst: read_count(bytes)?,
        psh: read_count(bytes)?,
        ack: read_count(bytes)?,
        urg: read_count(bytes)?,
        ece: read_count(bytes)?,
        cwr: read_count(bytes)?,
        ns: read_count(bytes)?,
    })
}

fn flags_len(c: TcpFlagCounts) -> usize
    ensures len { result ≡ length (flags.write c) }
    ensures longest { result ≤ 90 }
{
    c.fin.len()
        + c.syn.len()
        + c.rst.len()
        + c.psh.len()
        + c.ack.len()
        + c.urg.len()
        + c.ece.len()
        + c.cwr.len()
        + c.ns.len()
}

fn store_flags(out: &mut [u8], at: usize, c: TcpFlagCounts) -> usize
    requires { at + length (flags.write c) ≤ length out.old }
    ensures { Writes at (flags.write c) out.old out.new result }
{
    let at = c.fin.write(out, at);
    let at = c.syn.write(out, at);
    let at = c.rst.write(out, at);
    let at = c.psh.write(out, at);
    let at = c.ack.write(out, at);
    let at = c.urg.write(out, at);
    let at = c.ece.write(out, at);
    let at = c.cwr.write(out, at);
    c.ns.write(out, at)
}

impl ByteForm for DirectionFields {
    ghost form = { direction };

    ghost longest = { 130 };

    fn read(bytes: &mut &[u8]) -> Result<DirectionFields, Stop> {
        Ok(DirectionFields {
            packets: read_count(bytes)?,
            frame_octets: read_count(bytes)?,
            least: Option::read(bytes)?,
            greatest: Option::read(bytes)?,
            flags: read_flags(bytes)?,
        })
    }

    fn len(&self) -> usize {
        self.packets.len()
            + self.frame_octets.len()
            + self.least.len()
            + self.greatest.len()
            + flags_len(self.flags)
    }

    fn write(&self, out: &mut [u8], at: usize) -> usize {
        let at = self.packets.write(out, at);
        let at = self.frame_octets.write(out, at);
        let at = self.least.write(out, at);
        let at = self.greatest.write(out, at);
        store_flags(out, at, self.flags)
    }

    ghost short = { Prim.search rules };
}

impl ByteForm for TailFields {
    ghost form = { tail };

    ghost longest = { 61 };

    fn read(bytes: &mut &[u8]) -> Result<TailFields, Stop> {
        Ok(TailFields {
            least_ttl: Option::read(bytes)?,
            greatest_ttl: Option::read(bytes)?,
            dscp: Option::read(bytes)?,
            ecn: Option::read(bytes)?,
            icmp: Option::read(bytes)?,
            captured_octets: read_count(bytes)?,
            truncated: bit_from(read_bounded(bytes, 1)?),
        })
    }

    #[tactic(auto, using(crate::proofs::Schema::tail_length))]
    fn len(&self) -> usize {
        self.least_ttl.len()
            + self.greatest_ttl.len()
            + self.dscp.len()
            + self.ecn.len()
            + self.icmp.len()
            + self.captured_octets.len()
            + 1
    }

    fn write(&self, out: &mut [u8], at: usize) -> usize {
        let at = self.least_ttl.write(out, at);
        let at = self.greatest_ttl.write(out, at);
        let at = self.dscp.write(out, at);
        let at = self.ecn.write(out, at);
        let at = self.icmp.write(out, at);
        let at = self.captured_octets.write(out, at);
        store_number(out, at, bit_number(self.truncated))
    }

    ghost short = { Prim.search rules };
}

impl ByteForm for RecordFields {
    ghost form = { fields };

    ghost longest = { 473 };

    fn read(bytes: &mut &[u8]) -> Result<RecordFields, Stop> {
        Ok(RecordFields {
            head: HeadFields::read(bytes)?,
            forward: DirectionFields::read(bytes)?,
            reverse: DirectionFields::read(bytes)?,
            tail: TailFields::read(bytes)?,
            key: FlowKey::read(bytes)?,
        })
    }

    fn len(&self) -> usize {
        self.head.len() + self.forward.len() + self.reverse.len() + self.tail.len() + self.key.len()
    }

    fn write(&self, out: &mut [u8], at: usize) -> usize {
        let at = self.head.write(out, at);
        let at = self.forward.write(out, at);
        let at = self.reverse.write(out, at);
        let at = self.tail.write(out, at);
        self.key.write(out, at)
    }

    ghost short = { Prim.search rules };
}
