// One form read from lent bytes, or written into them: a number, a packet, a record.
ghost use Rattle.std.specs.Prelude.{◌≡◌, ◌∷◌, [], true, leb};
ghost use Rattle.words.specs.Words.{words_fit};
ghost use Rattle.forms.specs.Lone.{read_one, write_one};
ghost use Rattle.forms.specs.Number.{number, number_bytes};
ghost use Rattle.braidpuddle_forms.specs.Forms.{told, wrote_as, packet_told, packet_written, record_told, closed_of, record_written};

use crate::facts::{fact_numbers, facts_fit, facts_from};
use crate::report::report;
use flow::record::FlowRecord;
use forms::number::{read_lone_number, write_lone_number};
use key::form::key_len;
use state::slot::whole_key;
use wire::packet::{Packet, read_packet, write_packet};
use wire::record::{Flow, read_record, reason_from, reason_number, write_record};
use words::words::{record_of, words_fit, words_of};

// The number, at most `most`, that the bytes begin with: `answer` is its value and the bytes used.
pub fn braidpuddle_read_number(bytes: &[u8], most: u64, answer: &mut [u64; 2]) -> u64
    ensures { (result, answer.new) ≡ told (read_one 4 (number most) bytes.now) (λ v used. v ∷ used ∷ []) answer.old }
{
    match read_lone_number(bytes, most) {
        Ok((value, used)) => {
            *answer = [value, used as u64];
            0
        }
        Err(refusal) => refusal.number() as u64,
    }
}

// The number at the front of `out`: `written` is how many bytes it took.
pub fn braidpuddle_write_number(out: &mut [u8], value: u64, most: u64, written: &mut u64) -> u64
    ensures { ((result, written.new), out.new) ≡ wrote_as (write_one 4 (leb value most) (number_bytes value) out.old) written.old }
{
    report(write_lone_number(out, value, most), written)
}

// The packet that the bytes begin with: `packet` is its numbers, `place` where its key form begins and where it ends.
pub fn braidpuddle_read_packet(bytes: &[u8], packet: &mut [u64; 8], place: &mut [u64; 2]) -> u64
    ensures { (result, (packet.new, place.new)) ≡ packet_told bytes.now (packet.old, place.old) }
{
    match read_packet(bytes) {
        Ok((read, used)) => {
            let begins = used - key_len(read.key);
            *packet = fact_numbers(read.facts);
            *place = [begins as u64, used as u64];
            0
        }
        Err(refusal) => refusal.number() as u64,
    }
}

// The form of the packet of these numbers and this key at the front of `out`: `written` is how many bytes it took.
pub fn braidpuddle_write_packet(
    out: &mut [u8],
    packet: &[u64; 8],
    key: &[u8],
    written: &mut u64,
) -> u64
    ensures { ((result, written.new), out.new) ≡ wrote_as (packet_written packet.now key.now out.old) written.old }
{
    let Some(named) = whole_key(key) else {
        return 4;
    };
    if !facts_fit(packet) {
        return 4;
    }
    let facts = facts_from(packet);
    report(write_packet(out, Packet { facts, key: named }), written)
}

// The record that the bytes begin with: `record` is its words, `place` where its key form begins, where it ends, and the number
// of its end reason.
pub fn braidpuddle_read_record(bytes: &[u8], record: &mut [u64; 37], place: &mut [u64; 3]) -> u64
    ensures { (result, («record».new, place.new)) ≡ record_told bytes.now («record».old, place.old) }
{
    match read_record(bytes) {
        Ok((flow, used)) => {
            let begins = used - key_len(flow.key);
            *record = words_of(flow.record);
            *place = [
                begins as u64,
                used as u64,
                reason_number(flow.record.time.end_reason),
            ];
            0
        }
        Err(refusal) => refusal.number() as u64,
    }
}

// The record of words, closed with the reason of a number.
fn closed_record(record: &[u64; 37], reason: u64) -> FlowRecord
    requires { words_fit «record».now ≡ true }
    ensures { result ≡ closed_of «record».now reason }
{
    record_of(record).close(reason_from(reason))
}

// The form of the record of these words, this end reason and this key at the front of `out`: `written` is how many bytes it took.
pub fn braidpuddle_write_record(
    out: &mut [u8],
    record: &[u64; 37],
    reason: u64,
    key: &[u8],
    written: &mut u64,
) -> u64
    ensures { ((result, written.new), out.new) ≡ wrote_as (record_written «record».now reason key.now out.old) written.old }
{
    let Some(named) = whole_key(key) else {
        return 3;
    };
    if words_fit(record) & (reason <= 3) {
        let flow = Flow {
            key: named,
            record: closed_record(record, reason),
        };
        return report(write_record(out, flow), written);
    }
    3
}
