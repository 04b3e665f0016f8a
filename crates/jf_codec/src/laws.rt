// Laws of spellings, for proofs of code that uses them. These functions do nothing when they run.
ghost use Rattle.jf_codec.specs.Laws.{OneNameInFront, OneNodeInFront, OneNodeSpelling};

/// Bytes begin with the spelling of at most one name.
pub fn one_name_in_front()
    ensures { OneNameInFront }
{}

/// Bytes begin with the spelling of at most one node.
pub fn one_node_in_front()
    ensures { OneNodeInFront }
{}

/// A node has the same one spelling in each format in which it can be spelled.
pub fn one_spelling()
    ensures { OneNodeSpelling }
{}
