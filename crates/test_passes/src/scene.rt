// Two passes of a store.
use jf_disk::MemDisk;
use jf_store::{Pass, Store};

// A store, and two of its passes.
#[derive(Drop)]
pub(crate) struct Scene<'a> {
    pub(crate) store: &'a Store<MemDisk>,
    pub(crate) first: &'a mut Pass<MemDisk>,
    pub(crate) second: &'a mut Pass<MemDisk>,
}
