// One form read from lent bytes, or written into them: a number, a packet, a record.
ghost use Rattle.std.specs.Prelude.{◌≡◌, ◌∷◌, [], leb};
ghost use Rattle.forms.specs.Lone.{read_one, write_one};
ghost use Rattle.forms.specs.Number.{number, number_bytes};
ghost use Rattle.braidpuddle_forms.specs.Forms.{told, wrote_as, packet_told, packet_written, record_told, record_written};

// The number, at most `most`, that the bytes begin with: `answer` is its value and the bytes used.
#[unsafe(no_mangle)]
pub extern "C" fn braidpuddle_read_number(bytes: &[u8], most: u64, answer: &mut [u64; 2]) -> u64
    ensures { (result, answer.new) ≡ told (read_one 4 (number most) bytes.now) (λ v used. v ∷ used ∷ []) answer.old }
{
    braidpuddle_forms::form::braidpuddle_read_number(bytes, most, answer)
}

// The number at the front of `out`: `written` is how many bytes it took.
#[unsafe(no_mangle)]
pub extern "C" fn braidpuddle_write_number(
    out: &mut [u8],
    value: u64,
    most: u64,
    written: &mut u64,
) -> u64
    ensures { ((result, written.new), out.new) ≡ wrote_as (write_one 4 (leb value most) (number_bytes value) out.old) written.old }
{
    braidpuddle_forms::form::braidpuddle_write_number(out, value, most, written)
}

// The packet that the bytes begin with: `packet` is its numbers, `place` where its key form begins and where it ends.
#[unsafe(no_mangle)]
pub extern "C" fn braidpuddle_read_packet(
    bytes: &[u8],
    packet: &mut [u64; 8],
    place: &mut [u64; 2],
) -> u64
    ensures { (result, (packet.new, place.new)) ≡ packet_told bytes.now (packet.old, place.old) }
{
    braidpuddle_forms::form::braidpuddle_read_packet(bytes, packet, place)
}

// The form of the packet of these numbers and this key at the front of `out`: `written` is how many bytes it took.
#[unsafe(no_mangle)]
pub extern "C" fn braidpuddle_write_packet(
    out: &mut [u8],
    packet: &[u64; 8],
    key: &[u8],
    written: &mut u64,
) -> u64
    ensures { ((result, written.new), out.new) ≡ wrote_as (packet_written packet.now key.now out.old) written.old }
{
    braidpuddle_forms::form::braidpuddle_write_packet(out, packet, key, written)
}

// The record that the bytes begin with: `record` is its words, `place` where its key form begins, where it ends, and the number
// of its end reason.
#[unsafe(no_mangle)]
pub extern "C" fn braidpuddle_read_record(
    bytes: &[u8],
    record: &mut [u64; 37],
    place: &mut [u64; 3],
) -> u64
    ensures { (result, («record».new, place.new)) ≡ record_told bytes.now («record».old, place.old) }
{
    braidpuddle_forms::form::braidpuddle_read_record(bytes, record, place)
}

// The form of the record of these words, this end reason and this key at the front of `out`: `written` is how many bytes it took.
#[unsafe(no_mangle)]
pub extern "C" fn braidpuddle_write_record(
    out: &mut [u8],
    record: &[u64; 37],
    reason: u64,
    key: &[u8],
    written: &mut u64,
) -> u64
    ensures { ((result, written.new), out.new) ≡ wrote_as (record_written «record».now reason key.now out.old) written.old }
{
    braidpuddle_forms::form::braidpuddle_write_record(out, record, reason, key, written)
}
