// The VLAN tags a frame arrived carrying, outermost first. Part of flow identity: separate segments routinely use the same
// addresses.
#[derive(Clone, Copy, Debug, PartialEq, Eq)]
pub enum VlanTags {
    Untagged,
    Single(u16),
    Double(u16, u16),
}
