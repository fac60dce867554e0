//! The keys of the flows, and others that are put in their place.
use crate::places::Memory;
use key::form::write_key;
use key::key::{Address, Endpoints, FlowKey};
use key::link::MacAddress;
use key::vlan::VlanTags;
use listing::fields::part;
use listing::line::put;

// Between 10.0.0.1 and 10.0.0.2.
fn between(protocol: u8, endpoints: Endpoints) -> FlowKey {
    FlowKey {
        source: Address::V4(0x0a00_0001),
        destination: Address::V4(0x0a00_0002),
        endpoints,
        protocol,
        ethertype: None,
        source_mac: MacAddress {
            high: 0x0200,
            low: 1,
        },
        destination_mac: MacAddress {
            high: 0x0200,
            low: 2,
        },
        vlan: VlanTags::Untagged,
        encapsulation: None,
    }
}

/// Its form has 32 bytes: protocol, ethertype, kind of endpoints, ports in 3 and 2 bytes, two addresses of 5 bytes, two link
/// addresses of 6, VLAN count and tunnel.
pub fn conversation() -> FlowKey {
    between(
        6,
        Endpoints::Ports {
            source: 50000,
            destination: 443,
        },
    )
}

pub fn lone_packet() -> FlowKey {
    between(
        17,
        Endpoints::Ports {
            source: 50000,
            destination: 53,
        },
    )
}

pub fn association() -> FlowKey {
    between(50, Endpoints::SecurityAssociation(4096))
}

pub fn gre() -> FlowKey {
    between(47, Endpoints::GreProtocol(0x0800))
}

pub fn no_endpoints() -> FlowKey {
    between(1, Endpoints::None)
}

/// A key that is its own reverse.
pub fn round() -> FlowKey {
    let address = Address::V4(0x0a00_0001);
    let mac = MacAddress { high: 0, low: 0 };
    let ports = Endpoints::Ports {
        source: 7,
        destination: 7,
    };
    FlowKey {
        source: address,
        destination: address,
        source_mac: mac,
        destination_mac: mac,
        ..between(6, ports)
    }
}

/// Marks the slot that begins at `slot` used, under the key.
pub fn put_key(memory: &mut Memory, slot: usize, key: FlowKey) {
    let mut form = [0u8; 72];
    let Ok(length) = write_key(&mut form, key) else {
        return;
    };
    let form = part(&form, 0, length);
    if let Ok(length) = u8::try_from(form.len()) {
        let behind = put(memory, slot, &[1, length]);
        put(memory, behind, form);
    }
}
