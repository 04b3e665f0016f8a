// Laws on what a landing writes, for proofs of code that stands on them. These functions do nothing when
// they run.
ghost use Rattle.jf_walk.specs.Laws.{WalkListsFresh, FreshAreNodes, FreshRises, FreshHasPaths, FreshIsBounded, FreshAndStale, NodesAreListed, NodesHavePaths, FreshAreListed, FreshIsWhatDiffers};

/// The walk that goes down only where two maps differ goes to exactly the nodes that a landing writes.
pub fn walk_lists_fresh()
    ensures { WalkListsFresh }
{}

/// Each fresh node is a node of the new map, with all entries under its path.
pub fn fresh_are_nodes()
    ensures { FreshAreNodes }
{}

/// The fresh nodes stand in the order of their paths, each once.
pub fn fresh_rises()
    ensures { FreshRises }
{}

/// Each fresh node has a path of at most 64 nibbles.
pub fn fresh_has_paths()
    ensures { FreshHasPaths }
{}

/// A batch writes at most 66 nodes for each of its keys, and the top.
pub fn fresh_is_bounded()
    ensures { FreshIsBounded }
{}

/// The nodes of the new map and the stale ones are as many as the nodes of the old map and the fresh ones.
pub fn fresh_and_stale()
    ensures { FreshAndStale }
{}

/// The list of a map's nodes has each node, with all entries under its path, and nothing else.
pub fn nodes_are_listed()
    ensures { NodesAreListed }
{}

/// Each node of a map is at a path of at most 64 nibbles.
pub fn nodes_have_paths()
    ensures { NodesHavePaths }
{}

/// A landing writes each fresh node of the new map, and nothing else.
pub fn fresh_are_listed()
    ensures { FreshAreListed }
{}

/// A landing writes the top, and each node of the new map that the old one doesn't have with the same entries.
pub fn fresh_is_what_differs()
    ensures { FreshIsWhatDiffers }
{}
