// Link-layer identity.

// A MAC address, six bytes: the first two and the last four, the first byte highest.
#[derive(Clone, Copy, Debug, PartialEq, Eq)]
pub struct MacAddress {
    pub high: u16,
    pub low: u32,
}
