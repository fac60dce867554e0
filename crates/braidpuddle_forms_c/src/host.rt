// A host's own record as its 37 words: begun with its first packet, then counted on where it stands.
ghost use Rattle.std.specs.Prelude.{◌≡◌};
ghost use Rattle.braidpuddle_forms.specs.Host.{begun_words, counted_words};

// The record of a flow's first packet, counted forward; resolution 0 is microseconds, any other finer.
#[unsafe(no_mangle)]
pub extern "C" fn braidpuddle_begin(
    packet: &[u64; 8],
    protocol: u64,
    resolution: u64,
    record: &mut [u64; 37],
) -> u64
    ensures { (result, «record».new) ≡ begun_words packet.now protocol resolution «record».old }
{
    braidpuddle_forms::host::braidpuddle_begin(packet, protocol, resolution, record)
}

// The packet counted on the record, in the direction named: Damaged, Packet or Spent, in that order, leaves it as it was.
#[unsafe(no_mangle)]
pub extern "C" fn braidpuddle_count(
    record: &mut [u64; 37],
    direction: u64,
    packet: &[u64; 8],
) -> u64
    ensures { (result, «record».new) ≡ counted_words «record».old direction packet.now }
{
    braidpuddle_forms::host::braidpuddle_count(record, direction, packet)
}
