// Laws of the order of nodes and of checkpoints. These functions do nothing when they run.
ghost use Rattle.jf_standing.specs.OrderLaws.{OrderIsFree, CheckpointsGive, CheckpointsAreDecided, OneStanding, BuiltIsSound, ImportsAreSound, NewIsSound, NodesAreValid, NodesAreKept};

/// What nodes represent doesn't depend on their order.
pub fn order_is_free()
    ensures { OrderIsFree }
{}

/// The checkpoint of a sound standing gives the same nodes, in the order of their names, and the same versions.
pub fn checkpoints_give()
    ensures { CheckpointsGive }
{}

/// Nodes that were read are sound exactly if they equal what is built anew from their maps and versions.
pub fn checkpoints_are_decided()
    ensures { CheckpointsAreDecided }
{}

/// A sound standing follows from its maps and the versions of the nodes at its floor.
pub fn one_standing()
    ensures { OneStanding }
{}

/// Maps landed in turn on a sound standing leave a sound standing.
pub fn built_is_sound()
    ensures { BuiltIsSound }
{}

/// One map whose nodes are all of one version is sound, and represents that version alone.
pub fn imports_are_sound()
    ensures { ImportsAreSound }
{}

/// A new store is sound, and represents version 0 without an entry.
pub fn new_is_sound()
    ensures { NewIsSound }
{}

/// Each node of a sound standing has a spelling, if values have at most 4,096 bytes.
pub fn nodes_are_valid()
    ensures { NodesAreValid }
{}

/// A sound standing has as many nodes as its versions keep.
pub fn nodes_are_kept()
    ensures { NodesAreKept }
{}
