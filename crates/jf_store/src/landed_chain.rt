// What the landing of a fork with its ancestors landed.
use crate::root_list::RootList;
use jf_engine::Landed;
use jf_split::BatchList;

/// What the landing of a fork with its ancestors landed: the last version, as every landing tells it; and, the oldest
/// first, the batch that made each version and the root of each. The last root is that of `landed`.
#[derive(Drop)]
pub struct LandedChain {
    pub landed: Landed,
    pub batches: BatchList,
    pub roots: RootList,
}
