//! A record that a host holds of its own: begun with its first packet, then counted on where it stands.

ghost use Rattle.std.specs.Prelude.{◌≡◌};
ghost use Rattle.flow.specs.Observed.{packet_in_range, refusal_of, observed_of, left_by, stored, begun_of};

use crate::record::{Direction, FlowRecord, PacketFacts, counted_on, has_room, mask_of};
use crate::sound::sound_aside;
use crate::time::TimeResolution;
use forms::refusal::Refusal;

/// Whether every field of the packet is in range: the flags are a mask of nine bits, and the types hold the others.
pub fn in_range(packet: PacketFacts) -> bool
    ensures { result ≡ packet_in_range packet }
{
    mask_of(packet.tcp_flags) < 512
}

// Damaged, Packet or Spent, in that order.
#[tactic(auto, unfolding(crate::specs::Observed::refusal_of))]
fn refusal_of(record: FlowRecord, packet: PacketFacts) -> Option<Refusal>
    ensures { result ≡ refusal_of «record» packet }
{
    if !sound_aside(record) {
        return Some(Refusal::Damaged);
    }
    if !in_range(packet) {
        return Some(Refusal::Packet);
    }
    if !has_room(record, packet) {
        return Some(Refusal::Spent);
    }
    None
}

/// A record begun with its first packet, counted forward; Packet where a field of it is out of range.
#[tactic(auto, using(crate::specs::RefusalLaws::opened_has_room), unfolding(crate::specs::Observed::begun_of))]
pub fn begin(
    resolution: TimeResolution,
    protocol: u8,
    packet: PacketFacts,
) -> Result<FlowRecord, Refusal>
    ensures { result ≡ begun_of resolution protocol packet }
{
    if !in_range(packet) {
        return Err(Refusal::Packet);
    }
    let opened = FlowRecord::open(resolution, protocol, packet);
    Ok(counted_on(opened, Direction::Forward, packet))
}

/// A packet counted on a record, by value; Damaged, Packet or Spent, in that order.
#[tactic(auto, using(crate::specs::RefusalLaws::room_to_count), unfolding(crate::specs::Observed::observed_of))]
pub fn observed(
    record: FlowRecord,
    direction: Direction,
    packet: PacketFacts,
) -> Result<FlowRecord, Refusal>
    ensures { result ≡ observed_of «record» direction packet }
{
    match refusal_of(record, packet) {
        Some(refusal) => Err(refusal),
        None => Ok(counted_on(record, direction, packet)),
    }
}

impl FlowRecord {
    /// A packet counted where the record stands, in a direction that the host names. Thin: the record is read, counted by value
    /// and stored. A refused record is unchanged.
    pub fn observe(&mut self, direction: Direction, packet: PacketFacts) -> Result<(), Refusal>
        ensures answer { result ≡ stored (observed_of self.old direction packet) }
        ensures left { self.new ≡ left_by self.old (observed_of self.old direction packet) }
    {
        *self = observed(*self, direction, packet)?;
        Ok(())
    }
}
