//! The key of most packets, seen where its bytes lie without a key being made of them: a protocol of one byte, no EtherType, ports, two
//! IPv4 addresses, no VLAN tag, no tunnel.
#![tactic(auto)]

ghost use Rattle.std.specs.Prelude.{◌≡◌, ◌+◌, ◌≤◌, length, Some};
ghost use Rattle.forms.specs.Raw.{RawAt};
ghost use Rattle.key.specs.Key.{reversed_key};
ghost use Rattle.key.specs.KeyForm.{key};
ghost use Rattle.memory.specs.Bytes.{patch};
ghost use Rattle.plain.specs.Plain.{plain_at, key_read};
ghost use Rattle.plain.specs.Tests.{head_is_plain, tail_is_plain, plain_hash};

use forms::number::read_number;
use key::key::{Address, Endpoints, FlowKey};
use key::link::MacAddress;
use key::vlan::VlanTags;

/// A plain key's hash; where its second port begins, its addresses, and what stands behind it.
#[derive(Clone, Copy, Debug, PartialEq, Eq)]
pub struct Plain {
    pub hash: u64,
    pub second_port: usize,
    pub addresses: usize,
    pub next: usize,
}

/// The hash of a plain key. The MACs are no part of it.
#[tactic(auto, unfolding(crate::specs::Tests::plain_hash))]
fn hash_of(
    protocol: u8,
    source: u32,
    source_port: u16,
    destination: u32,
    destination_port: u16,
) -> u64
    ensures { result ≡ plain_hash protocol source source_port destination destination_port }
{
    let nothing = MacAddress { high: 0, low: 0 };
    let key = FlowKey {
        source: Address::V4(source),
        destination: Address::V4(destination),
        endpoints: Endpoints::Ports {
            source: source_port,
            destination: destination_port,
        },
        protocol,
        ethertype: None,
        source_mac: nothing,
        destination_mac: nothing,
        vlan: VlanTags::Untagged,
        encapsulation: None,
    };
    key.shard(524_288)
}

/// Whether there is room for a plain key, and its first three bytes stand here: protocol, no EtherType, ports.
#[tactic(auto, unfolding(crate::specs::Tests::head_is_plain))]
fn head_is_plain(s: &[u8], at: usize) -> bool
    ensures { result ≡ head_is_plain s.now at }
{
    if s.len() < at || s.len() - at < 29 {
        return false;
    }
    s[at] < 128 && s[at + 1] == 0 && s[at + 2] == 1
}

/// Whether the 24 bytes behind a plain key's ports stand here: two IPv4 addresses, two MACs, no VLAN tag, no tunnel.
#[tactic(auto, unfolding(crate::specs::Tests::tail_is_plain))]
fn tail_is_plain(s: &[u8], at: usize) -> bool
    requires { at ≤ length s.now }
    ensures { result ≡ tail_is_plain s.now at }
{
    if s.len() - at < 24 {
        return false;
    }
    s[at] == 4 && s[at + 5] == 4 && s[at + 22] == 0 && s[at + 23] == 0
}

/// An IPv4 address.
#[tactic(auto, using(crate::proofs::Seeing::address_here))]
fn address_at(s: &[u8], at: usize) -> u32
    requires { at + 4 ≤ length s.now }
    ensures { RawAt s.now at 4 result }
{
    let Some(address) = s[at..at + 4].first_chunk() else {
        unreachable!();
    };
    u32::from_be_bytes(*address)
}

/// The plain key at `at`, if one stands there.
#[tactic(auto, unfolding(crate::specs::Tests::head_is_plain, crate::specs::Tests::tail_is_plain))]
pub fn plain_at(s: &[u8], at: usize) -> Option<Plain>
    ensures { result ≡ plain_at s.now at }
{
    if !head_is_plain(s, at) {
        return None;
    }
    let (first, middle) = read_number(s, at + 3, 65535).ok()?;
    let (second, behind) = read_number(s, middle, 65535).ok()?;
    if !tail_is_plain(s, behind) {
        return None;
    }
    let source = address_at(s, behind + 1);
    let destination = address_at(s, behind + 6);
    Some(Plain {
        hash: hash_of(s[at], source, first as u16, destination, second as u16),
        second_port: middle,
        addresses: behind,
        next: behind + 24,
    })
}

/// The reversed key's bytes, at the front of `out`: ports, addresses and MACs change places.
#[tactic(auto, using(crate::proofs::Turned::places))]
pub fn write_turned(out: &mut [u8], s: &[u8], at: usize, plain: Plain)
    requires plain_value { Some plain ≡ plain_at s.now at }
    requires in_bounds { 33 ≤ length out.old }
    ensures { out.new ≡ patch out.old 0 (key.write (reversed_key (key_read s.now at))) }
{
    let ports = at + 3;
    let second = plain.second_port;
    let addresses = plain.addresses;
    let behind = addresses - at;
    memory::copy_at(out, 0, &s[at..ports]);
    memory::copy_at(out, 3, &s[second..addresses]);
    memory::copy_at(out, 3 + (addresses - second), &s[ports..second]);
    memory::copy_at(out, behind, &s[addresses + 5..addresses + 10]);
    memory::copy_at(out, behind + 5, &s[addresses..addresses + 5]);
    memory::copy_at(out, behind + 10, &s[addresses + 16..addresses + 22]);
    memory::copy_at(out, behind + 16, &s[addresses + 10..addresses + 16]);
    memory::copy_at(out, behind + 22, &s[addresses + 22..addresses + 24]);
}
