// A node's name: the version that wrote it, and its path from the root.
use crate::path::NibblePath;
use std::cmp::Ordering;

/// The name of a node: the version that wrote it, and its path. Names are ordered by version, and then by path.
#[derive(Clone, Copy, Debug, PartialEq, Eq)]
pub struct NodeName {
    pub version: u64,
    pub path: NibblePath,
}

impl Ord for NodeName {
    ghost use Rattle.std.specs.Cmp.Rules.{comparing};
    ghost use Rattle.std.proofs.Common.{rules};
    ghost use Rattle.jf_path.specs.Names.{name_cmp};
    ghost use Rattle.jf_path.specs.NameLaws.{name_cmp_total, name_ties};

    ghost cmp = { name_cmp };

    ghost total = { name_cmp_total };

    ghost matches_partial_cmp = { Prim.search (comparing, rules) };

    ghost matches_eq = { name_ties };

    fn cmp(&self, other: &NodeName) -> Ordering {
        let by_version = self.version.cmp(&other.version);
        by_version.then(self.path.cmp(&other.path))
    }
}

impl PartialOrd for NodeName {
    ghost use Rattle.std.specs.Cmp.{partial_order_from_own_ties, partial_order_from_total};
    ghost use Rattle.std.specs.Ordering.{as_partial_cmp};
    ghost use Rattle.jf_path.specs.Names.{name_cmp};
    ghost use Rattle.jf_path.specs.NameLaws.{name_cmp_total, name_ties};

    ghost partial_cmp = { as_partial_cmp name_cmp };

    ghost laws = { partial_order_from_own_ties (partial_order_from_total name_cmp_total) name_ties };

    fn partial_cmp(&self, other: &NodeName) -> Option<Ordering> {
        Some(self.cmp(other))
    }
}
