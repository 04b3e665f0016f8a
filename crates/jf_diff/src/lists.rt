// The lists of what a landing wrote and made stale.
use crate::named_nodes::NamedNodes;
use jf_path::NameList;

/// What a landing wrote, and the names of what it made stale.
#[derive(Drop)]
pub struct Written {
    pub fresh: NamedNodes,
    pub stale: NameList,
}
