//! What a batch changes below a path, as definitions with their laws: the parts of a map by nibble, the nodes below a
//! path, and the walk over two maps that lists the nodes of one that the other doesn't have.
#![tactic(auto)]

mod laws;

pub use laws::{
    fresh_and_stale, fresh_are_listed, fresh_are_nodes, fresh_has_paths, fresh_is_bounded,
    fresh_is_what_differs, fresh_rises, nodes_are_listed, nodes_have_paths, walk_lists_fresh,
};
