// What a store has in memory.
use jf_dir::Directory;
use jf_pair::Pair;
use jf_path::Bytes;

/// What a store has in memory. It takes a while to free, so a program that is about to end may leave that to the system.
#[derive(Drop)]
pub struct EngineMemory {
    pub(crate) pair: Pair,
    pub(crate) directory: Directory,
    pub(crate) frame: Bytes,
}
