//! Our own lines for keys: `k KEY REVERSED FORGOTTEN S0 S1 S2 S7 S4096 SMAX NAME VERSION BOTHWAYS
//! PORTS SPI GRE` and `q HEX ANSWER`.
use key::form::{read_key, write_key};
use key::key::{FlowKey, PortPair};
use listing::fields::{field, parse_hex, part};
use listing::line::{Hex, OrDash};
use listing::list::Unanswered;
use std::alloc::Global;
use std::fmt;
use std::fmt::Display;
use std::io::Write;

// The most bytes that a line asks to read.
const MOST_BYTES: usize = 128;

// The numbers of shards that a line names, in its order.
const SHARDS: [u64; 6] = [0, 1, 2, 7, 4096, u64::MAX];

/// Our line for bytes from which a key is to be read: all about the key, or why there is none.
pub fn read(alloc: Global, line: &[u8]) -> Result<Vec<u8>, Unanswered> {
    let asked = parse_hex(alloc, field(line, 1), MOST_BYTES)?;
    let hex = Hex(asked.as_slice());
    let mut ours = Vec::new(alloc);
    match read_key(asked.as_slice()) {
        Ok((key, used)) if used == asked.len() => put_key(&mut ours, key)?,
        Ok(_) => write!(ours, "a key is read with another length")?,
        Err(refusal) => {
            let number = refusal.number();
            write!(ours, "q {hex} {number}")?
        }
    }
    Ok(ours)
}

fn put_key(ours: &mut Vec<u8>, key: FlowKey) -> Result<(), Unanswered> {
    let form = Form(key);
    let reversed = Form(key.reversed());
    let forgotten = Form(key.forget_link_addresses());
    write!(ours, "k {form} {reversed} {forgotten}")?;
    for shards in SHARDS {
        let shard = key.shard(shards);
        write!(ours, " {shard}")?;
    }
    let name = protocol_name(key.protocol_name());
    let version = OrDash(key.ip_version());
    write!(ours, " {name} {version}")?;
    let endpoints = key.endpoints;
    let both_ways = u8::from(endpoints.has_reverse_direction());
    let ports = OrDash(endpoints.ports().map(Ports));
    let association = OrDash(endpoints.security_association());
    let gre = OrDash(endpoints.gre_protocol());
    write!(ours, " {both_ways} {ports} {association} {gre}")?;
    Ok(())
}

// A key's form in hex.
#[derive(Clone, Copy)]
struct Form(FlowKey);

impl Display for Form {
    fn fmt<W: fmt::Write>(&self, f: &mut fmt::Formatter<W>) -> fmt::Result {
        // Just as much as the longest key takes.
        let mut form = [0u8; 72];
        match write_key(&mut form, self.0) {
            Ok(length) => {
                let hex = Hex(part(&form, 0, length));
                write!(f, "{hex}")
            }
            Err(_) => f.write_str("no room for a key"),
        }
    }
}

// Two ports, as a line names them.
#[derive(Debug, Clone, Copy, PartialEq, Eq)]
struct Ports(PortPair);

impl Display for Ports {
    fn fmt<W: fmt::Write>(&self, f: &mut fmt::Formatter<W>) -> fmt::Result {
        let source = self.0.source;
        let destination = self.0.destination;
        write!(f, "{source}:{destination}")
    }
}

fn protocol_name(number: u8) -> &'static str {
    match number {
        0 => "-",
        1 => "arp",
        2 => "icmp",
        3 => "igmp",
        4 => "tcp",
        5 => "udp",
        6 => "ipv6",
        7 => "gre",
        8 => "esp",
        9 => "ah",
        10 => "icmpv6",
        11 => "ospf",
        12 => "vrrp",
        13 => "sctp",
        _ => "no-such-name",
    }
}
