//! The forms of a key and of its parts: protocol; ethertype; endpoints; source, destination; two MACs; VLAN tags; encapsulation.
//! A key is read for each packet: its readers are inlined, so that what is left to read stays in registers.
#![tactic(auto, using(forms::specs::Form::raw_length), unfolding(crate::specs::KeyForm::key, crate::specs::KeyForm::endpoints, crate::specs::KeyForm::address, crate::specs::KeyForm::mac, crate::specs::KeyForm::vlan, crate::specs::KeyForm::encapsulation, forms::specs::Form::over, forms::specs::Form::pair, forms::specs::Form::follow, forms::specs::Form::with_first, forms::specs::Form::choice, forms::specs::Form::only))]

ghost use Rattle.std.specs.Prelude.{◌≡◌, ◌+◌, ◌≤◌, length};
ghost use Rattle.std.proofs.Common.{rules};
ghost use Rattle.forms.specs.Form.{found};
ghost use Rattle.forms.specs.Put.{Writes};
ghost use Rattle.key.specs.KeyForm.{endpoints, address, mac, vlan, encapsulation, key};

use crate::encapsulation::Encapsulation;
use crate::key::{Address, Endpoints, FlowKey};
use crate::link::MacAddress;
use crate::vlan::VlanTags;
use forms::form::ByteForm;
use forms::number::{number_len, read_bounded, store_number};
use forms::raw::{read_byte, read_raw, store_byte, store_raw2, store_raw4, store_raw8};
use forms::stop::Stop;

impl ByteForm for Endpoints {
    ghost form = { endpoints };

    ghost longest = { 21 };

    #[inline(always)]
    fn read(bytes: &mut &[u8]) -> Result<Endpoints, Stop> {
        match read_byte(bytes)? {
            0 => Ok(Endpoints::None),
            1 => Ok(Endpoints::Ports {
                source: u16::read(bytes)?,
                destination: u16::read(bytes)?,
            }),
            2 => Ok(Endpoints::SecurityAssociation(u32::read(bytes)?)),
            3 => Ok(Endpoints::GreProtocol(u16::read(bytes)?)),
            _ => Err(Stop::Refused),
        }
    }

    fn len(&self) -> usize {
        1 + match self {
            Endpoints::None => 0,
            Endpoints::Ports {
                source,
                destination,
            } => source.len() + destination.len(),
            Endpoints::SecurityAssociation(spi) => spi.len(),
            Endpoints::GreProtocol(protocol) => protocol.len(),
        }
    }

    fn write(&self, out: &mut [u8], at: usize) -> usize {
        match self {
            Endpoints::None => store_byte(out, at, 0),
            Endpoints::Ports {
                source,
                destination,
            } => {
                let at = store_byte(out, at, 1);
                let at = source.write(out, at);
                destination.write(out, at)
            }
            Endpoints::SecurityAssociation(spi) => {
                let at = store_byte(out, at, 2);
                spi.write(out, at)
            }
            Endpoints::GreProtocol(protocol) => {
                let at = store_byte(out, at, 3);
                protocol.write(out, at)
            }
        }
    }

    ghost short = { Prim.search rules };
}

impl ByteForm for Address {
    ghost form = { address };

    ghost longest = { 17 };

    #[inline(always)]
    fn read(bytes: &mut &[u8]) -> Result<Address, Stop> {
        match read_byte(bytes)? {
            4 => Ok(Address::V4(read_raw(bytes, 4)? as u32)),
            6 => Ok(Address::V6(read_raw(bytes, 8)?, read_raw(bytes, 8)?)),
            _ => Err(Stop::Refused),
        }
    }

    #[tactic(auto, using(crate::specs::KeyLength::v4_sized, crate::specs::KeyLength::v6_sized))]
    fn len(&self) -> usize {
        match self {
            Address::V4(_) => 5,
            Address::V6(_, _) => 17,
        }
    }

    fn write(&self, out: &mut [u8], at: usize) -> usize {
        match *self {
            Address::V4(word) => {
                let at = store_byte(out, at, 4);
                store_raw4(out, at, word)
            }
            Address::V6(high, low) => {
                let at = store_byte(out, at, 6);
                let at = store_raw8(out, at, high);
                store_raw8(out, at, low)
            }
        }
    }

    ghost short = { Prim.search rules };
}

impl ByteForm for MacAddress {
    ghost form = { mac };

    ghost longest = { 6 };

    #[inline(always)]
    fn read(bytes: &mut &[u8]) -> Result<MacAddress, Stop> {
        Ok(MacAddress {
            high: read_raw(bytes, 2)? as u16,
            low: read_raw(bytes, 4)? as u32,
        })
    }

    #[tactic(auto, using(crate::specs::KeyLength::mac_sized))]
    fn len(&self) -> usize {
        6
    }

    fn write(&self, out: &mut [u8], at: usize) -> usize {
        let at = store_raw2(out, at, self.high);
        store_raw4(out, at, self.low)
    }

    ghost short = { Prim.search rules };
}

impl ByteForm for VlanTags {
    ghost form = { vlan };

    ghost longest = { 21 };

    #[inline(always)]
    fn read(bytes: &mut &[u8]) -> Result<VlanTags, Stop> {
        match read_byte(bytes)? {
            0 => Ok(VlanTags::Untagged),
            1 => Ok(VlanTags::Single(u16::read(bytes)?)),
            2 => Ok(VlanTags::Double(u16::read(bytes)?, u16::read(bytes)?)),
            _ => Err(Stop::Refused),
        }
    }

    fn len(&self) -> usize {
        1 + match self {
            VlanTags::Untagged => 0,
            VlanTags::Single(tag) => tag.len(),
            VlanTags::Double(outer, inner) => outer.len() + inner.len(),
        }
    }

    fn write(&self, out: &mut [u8], at: usize) -> usize {
        match self {
            VlanTags::Untagged => store_byte(out, at, 0),
            VlanTags::Single(tag) => {
                let at = store_byte(out, at, 1);
                tag.write(out, at)
            }
            VlanTags::Double(outer, inner) => {
                let at = store_byte(out, at, 2);
                let at = outer.write(out, at);
                inner.write(out, at)
            }
        }
    }

    ghost short = { Prim.search rules };
}

// ---- the encapsulation, which is an `Option`: no type of this crate

#[inline(always)]
fn read_encapsulation(bytes: &mut &[u8]) -> Result<Option<Encapsulation>, Stop>
    ensures { found result bytes.new.now ≡ encapsulation.read bytes.old.now }
{
    match read_bounded(bytes, 256)? {
        0 => Ok(None),
        next => Ok(Some(Encapsulation {
            kind: (next - 1) as u8,
            id: Option::read(bytes)?,
        })),
    }
}

#[tactic(auto, using(crate::specs::KeyWrite::no_tunnel_writes, crate::proofs::Tunnel::tunnel_length))]
fn encapsulation_len(tunnel: Option<Encapsulation>) -> usize
    ensures len { result ≡ length (encapsulation.write tunnel) }
    ensures longest { result ≤ 20 }
{
    match tunnel {
        None => number_len(0),
        Some(tunnel) => number_len(tunnel.kind as u64 + 1) + tunnel.id.len(),
    }
}

#[tactic(auto, using(crate::specs::KeyWrite::no_tunnel_writes, crate::proofs::Tunnel::tunnel_length))]
fn store_encapsulation(out: &mut [u8], at: usize, tunnel: Option<Encapsulation>) -> usize
    requires { at + length (encapsulation.write tunnel) ≤ length out.old }
    ensures { Writes at (encapsulation.write tunnel) out.old out.new result }
{
    match tunnel {
        None => store_number(out, at, 0),
        Some(tunnel) => {
            let at = store_number(out, at, tunnel.kind as u64 + 1);
            tunnel.id.write(out, at)
        }
    }
}

impl ByteForm for FlowKey {
    ghost form = { key };

    ghost longest = { 128 };

    #[inline(always)]
    fn read(bytes: &mut &[u8]) -> Result<FlowKey, Stop> {
        Ok(FlowKey {
            protocol: u8::read(bytes)?,
            ethertype: Option::read(bytes)?,
            endpoints: Endpoints::read(bytes)?,
            source: Address::read(bytes)?,
            destination: Address::read(bytes)?,
            source_mac: MacAddress::read(bytes)?,
            destination_mac: MacAddress::read(bytes)?,
            vlan: VlanTags::read(bytes)?,
            encapsulation: read_encapsulation(bytes)?,
        })
    }

    fn len(&self) -> usize {
        self.protocol.len()
            + self.ethertype.len()
            + self.endpoints.len()
            + self.source.len()
            + self.destination.len()
            + self.source_mac.len()
            + self.destination_mac.len()
            + self.vlan.len()
            + encapsulation_len(self.encapsulation)
    }

    fn write(&self, out: &mut [u8], at: usize) -> usize {
        let at = self.protocol.write(out, at);
        let at = self.ethertype.write(out, at);
        let at = self.endpoints.write(out, at);
        let at = self.source.write(out, at);
        let at = self.destination.write(out, at);
        let at = self.source_mac.write(out, at);
        let at = self.destination_mac.write(out, at);
        let at = self.vlan.write(out, at);
        store_encapsulation(out, at, self.encapsulation)
    }

    ghost short = { Prim.search rules };
}
