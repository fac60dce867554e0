// What identifies a flow.
ghost use Rattle.std.specs.Prelude.{◌≡◌, ◌<◌};
ghost use Rattle.key.specs.Endpoints.{has_reverse_direction, ports_of, security_association_of, gre_protocol_of, reversed_endpoints, port_pair};
ghost use Rattle.key.specs.Key.{reversed_key, forgotten, key_name, name_of, version_of};
ghost use Rattle.key.specs.Shard.{address_hash, endpoint_hash, vlan_hash, tunnel_hash, pair_hash, symmetric_hash, final_mix, shard_of};

use crate::encapsulation::Encapsulation;
use crate::link::MacAddress;
use crate::vlan::VlanTags;

// An address: an IPv4 one as one number, an IPv6 one as its high and low halves.
#[derive(Clone, Copy, Debug, PartialEq, Eq)]
pub enum Address {
    V4(u32),
    V6(u64, u64),
}

// What identifies the two ends of a flow: most protocols have transport ports, and the ones that do not put something else in
// their place.
#[derive(Clone, Copy, Debug, PartialEq, Eq)]
pub enum Endpoints {
    // TCP, UDP and SCTP.
    Ports { source: u16, destination: u16 },
    // An IPsec security association, named by its SPI: one-way by design, so each direction is its own flow.
    SecurityAssociation(u32),
    // A GRE tunnel whose inner flow could not be decoded, named by the protocol it was carrying.
    GreProtocol(u16),
    // ARP, ICMP, and anything else with no endpoints of its own.
    None,
}

#[derive(Clone, Copy, Debug, PartialEq, Eq)]
pub struct PortPair {
    pub source: u16,
    pub destination: u16,
}

impl Endpoints {
    // Whether traffic the other way belongs to the same flow. For all but a security association it does: reversing the
    // addresses while keeping the SPI names a flow that has nothing to do with this one.
    pub fn has_reverse_direction(self) -> bool
        ensures { result ≡ has_reverse_direction self }
    {
        match self {
            Endpoints::SecurityAssociation(_) => false,
            _ => true,
        }
    }

    // Transport ports, for the protocols that have them.
    pub fn ports(self) -> Option<PortPair>
        ensures { result ≡ ports_of self }
    {
        match self {
            Endpoints::Ports {
                source,
                destination,
            } => Some(PortPair {
                source: source,
                destination: destination,
            }),
            _ => None,
        }
    }

    pub fn security_association(self) -> Option<u32>
        ensures { result ≡ security_association_of self }
    {
        match self {
            Endpoints::SecurityAssociation(spi) => Some(spi),
            _ => None,
        }
    }

    pub fn gre_protocol(self) -> Option<u16>
        ensures { result ≡ gre_protocol_of self }
    {
        match self {
            Endpoints::GreProtocol(protocol) => Some(protocol),
            _ => None,
        }
    }

    // The same endpoints seen from the other direction. Only ports swap: an SPI and a GRE protocol have no counterpart.
    pub fn reversed(self) -> Endpoints
        ensures { result ≡ reversed_endpoints self }
    {
        match self {
            Endpoints::Ports {
                source,
                destination,
            } => Endpoints::Ports {
                source: destination,
                destination: source,
            },
            Endpoints::SecurityAssociation(spi) => Endpoints::SecurityAssociation(spi),
            Endpoints::GreProtocol(protocol) => Endpoints::GreProtocol(protocol),
            Endpoints::None => Endpoints::None,
        }
    }
}

// Everything that distinguishes one flow from another. The VLAN and the tunnel matter because separate segments routinely
// reuse the same private ranges.
#[derive(Clone, Copy, Debug, PartialEq, Eq)]
pub struct FlowKey {
    // Address of the endpoint that sent the packet which opened the flow, and the other endpoint.
    pub source: Address,
    pub destination: Address,
    pub endpoints: Endpoints,
    // IANA protocol number, or 0 for traffic with no IP protocol of its own, which `ethertype` identifies instead.
    pub protocol: u8,
    pub ethertype: Option<u16>,
    // Link-layer addresses, when the capture was asked to key on them.
    pub source_mac: MacAddress,
    pub destination_mac: MacAddress,
    pub vlan: VlanTags,
    pub encapsulation: Option<Encapsulation>,
}

// The EtherType of ARP, which has a name but no IP version.
const ETHERTYPE_ARP: u16 = 0x0806;

// A protocol's name as a number, 0 for none; specs/Key.antt has each name's bytes.
pub fn protocol_name(protocol: u8) -> u8
    ensures { result ≡ name_of protocol }
{
    match protocol {
        1 => 2,
        2 => 3,
        6 => 4,
        17 => 5,
        41 => 6,
        47 => 7,
        50 => 8,
        51 => 9,
        58 => 10,
        89 => 11,
        112 => 12,
        132 => 13,
        _ => 0,
    }
}

// An address reduced to one number.
#[tactic(auto, using(crate::proofs::Turns::turned_17))]
fn address_hash(address: Address) -> u64
    ensures { result ≡ address_hash address }
{
    match address {
        Address::V4(word) => word as u64,
        Address::V6(high, low) => high ^ low.rotate_left(17),
    }
}

// One endpoint reduced to a number, for the shard hash.
#[tactic(auto, using(crate::proofs::Turns::turned_48), unfolding(crate::specs::Shard::endpoint_hash))]
fn endpoint_hash(address: Address, port: u16) -> u64
    ensures { result ≡ endpoint_hash address port }
{
    address_hash(address).wrapping_mul(0xC2B2_AE3D_27D4_EB4F) ^ (port as u64).rotate_left(48)
}

// The tags in order, each turning those before it up.
#[tactic(auto, using(crate::proofs::Turns::turned_16, crate::specs::KeyLaws::hash_untagged, crate::specs::KeyLaws::hash_single, crate::specs::KeyLaws::hash_double))]
fn vlan_hash(vlan: VlanTags) -> u64
    ensures { result ≡ vlan_hash vlan }
{
    match vlan {
        VlanTags::Untagged => 0,
        VlanTags::Single(tag) => tag as u64,
        VlanTags::Double(outer, inner) => (outer as u64).rotate_left(16) ^ inner as u64,
    }
}

// `value` with the tunnel's id and kind in it, where there is a tunnel.
#[tactic(auto, using(crate::proofs::Turns::turned_32), unfolding(crate::specs::Shard::tunnel_hash))]
fn tunnel_hash(value: u64, encapsulation: Option<Encapsulation>) -> u64
    ensures { result ≡ tunnel_hash value encapsulation }
{
    match encapsulation {
        None => value,
        Some(tunnel) => {
            value ^ (tunnel.id.unwrap_or(0) as u64).rotate_left(32) ^ tunnel.kind as u64
        }
    }
}

// The final mix, so that the low bits are usable for a power-of-two shard count.
#[tactic(auto, unfolding(crate::specs::Shard::spread, crate::specs::Shard::final_mix))]
fn final_mix(value: u64) -> u64
    ensures { result ≡ final_mix value }
{
    let spread = (value ^ (value >> 33)).wrapping_mul(0xFF51_AFD7_ED55_8CCD);
    spread ^ (spread >> 29)
}

impl FlowKey {
    /// The same flow seen from the other direction. The VLAN and the tunnel do not swap: return traffic comes back on the same
    /// segment, through the same tunnel.
    pub fn reversed(self) -> FlowKey
        ensures { result ≡ reversed_key self }
    {
        FlowKey {
            source: self.destination,
            destination: self.source,
            endpoints: self.endpoints.reversed(),
            source_mac: self.destination_mac,
            destination_mac: self.source_mac,
            ..self
        }
    }

    // The two endpoints combined unordered, so that the pair hashes the same whichever way round it arrives.
    #[tactic(auto, unfolding(crate::specs::Shard::pair_hash))]
    fn pair_hash(self) -> u64
        ensures { result ≡ pair_hash self }
    {
        let ports = self.ports();
        endpoint_hash(self.source, ports.source)
            ^ endpoint_hash(self.destination, ports.destination)
    }

    // What goes into the shard: only what is the same in both directions. MAC addresses are left out.
    #[tactic(auto, unfolding(crate::specs::Shard::symmetric_hash))]
    fn symmetric_hash(self) -> u64
        ensures { result ≡ symmetric_hash self }
    {
        let pair = self.pair_hash().wrapping_mul(0x9E37_79B9_7F4A_7C15);
        let with_protocol = pair ^ self.protocol as u64;
        let with_ethertype = with_protocol ^ (self.ethertype.unwrap_or(0) as u64 * 256);
        tunnel_hash(with_ethertype ^ vlan_hash(self.vlan), self.encapsulation)
    }

    /// Which of `shards` workers this flow belongs to: the same for a key and its reverse, so that both directions of one
    /// conversation land on the same worker.
    #[tactic(auto, using(crate::specs::KeyLaws::one_shard, crate::specs::KeyLaws::some_shard))]
    pub fn shard(self, shards: u64) -> u64
        ensures { result ≡ shard_of self shards }
    {
        if shards <= 1 {
            return 0;
        }
        final_mix(self.symmetric_hash()) % shards
    }

    /// The key without the link-layer addresses, so that traffic between the same endpoints stays one flow regardless of the
    /// hops it took.
    pub fn forget_link_addresses(self) -> FlowKey
        ensures { result ≡ forgotten self }
    {
        FlowKey {
            source_mac: MacAddress { high: 0, low: 0 },
            destination_mac: MacAddress { high: 0, low: 0 },
            ..self
        }
    }

    /// Transport ports, or 0 and 0 for protocols without them.
    pub fn ports(self) -> PortPair
        ensures { result ≡ port_pair self.endpoints }
    {
        self.endpoints.ports().unwrap_or(PortPair {
            source: 0,
            destination: 0,
        })
    }

    /// The name, as a number, of the protocol this flow carried: ARP's by its EtherType, else the protocol number's.
    pub fn protocol_name(self) -> u8
        ensures { result ≡ key_name self }
    {
        match self.ethertype {
            Some(ETHERTYPE_ARP) => 1,
            _ => protocol_name(self.protocol),
        }
    }

    /// 4 or 6, or absent for traffic that is not IP: ARP's addresses are IPv4 ones inside a packet that is not IP at all.
    pub fn ip_version(self) -> Option<u8>
        ensures { result ≡ version_of self }
    {
        if self.ethertype.is_some() {
            return None;
        }
        match self.source {
            Address::V4(_) => Some(4),
            Address::V6(_, _) => Some(6),
        }
    }
}
