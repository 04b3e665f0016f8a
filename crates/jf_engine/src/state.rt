// The numbers of a store.

/// The numbers of a store: base, floor and head of its versions, the number of nodes that are kept, and the generation
/// of its files.
#[derive(Clone, Copy, Debug, PartialEq, Eq)]
pub struct State {
    pub base: u64,
    pub floor: u64,
    pub head: u64,
    pub kept: u64,
    pub generation: u64,
}
