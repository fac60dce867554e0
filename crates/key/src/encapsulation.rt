// The tunnel carrying a flow, as far as flow identity is concerned.

// The kind of tunnel, by its number, and what tells it from another of its kind. No id is not the same as id 0.
#[derive(Clone, Copy, Debug, PartialEq, Eq)]
pub struct Encapsulation {
    pub kind: u8,
    pub id: Option<u32>,
}
