// A host's own record as its 37 words: begun with its first packet, then counted on where it stands.
ghost use Rattle.std.specs.Prelude.{◌≡◌};
ghost use Rattle.braidpuddle_forms.specs.Host.{begun_words, counted_words, direction_named};

use crate::facts::{facts_fit, facts_from};
use flow::host::{begin, observed};
use flow::record::Direction;
use flow::sound::sound_aside;
use wire::record::resolution_from;
use words::words::{record_of, words_fit, words_of};

// The record of a flow's first packet, counted forward; resolution 0 is microseconds, any other finer.
pub fn braidpuddle_begin(
    packet: &[u64; 8],
    protocol: u64,
    resolution: u64,
    record: &mut [u64; 37],
) -> u64
    ensures { (result, «record».new) ≡ begun_words packet.now protocol resolution «record».old }
{
    if facts_fit(packet) & (protocol <= 255) {
        let facts = facts_from(packet);
        return match begin(resolution_from(resolution), protocol as u8, facts) {
            Ok(begun) => {
                *record = words_of(begun);
                0
            }
            Err(refusal) => refusal.number() as u64,
        };
    }
    4
}

// 0 is forward, any other number reverse.
fn direction_named(number: u64) -> Direction
    ensures { result ≡ direction_named number }
{
    match number {
        0 => Direction::Forward,
        _ => Direction::Reverse,
    }
}

// The packet counted on the record, in the direction named: Damaged, Packet or Spent, in that order, leaves it as it was.
pub fn braidpuddle_count(record: &mut [u64; 37], direction: u64, packet: &[u64; 8]) -> u64
    ensures { (result, «record».new) ≡ counted_words «record».old direction packet.now }
{
    if words_fit(record) {
        let before = record_of(record);
        if facts_fit(packet) {
            let facts = facts_from(packet);
            return match observed(before, direction_named(direction), facts) {
                Ok(after) => {
                    *record = words_of(after);
                    0
                }
                Err(refusal) => refusal.number() as u64,
            };
        }
        if sound_aside(before) {
            return 4;
        }
        return 3;
    }
    3
}
