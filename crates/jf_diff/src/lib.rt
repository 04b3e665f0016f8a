//! What a snapshot writes over an older one: the nodes by themselves, as they are written, and the names of the nodes
//! that it makes stale.
#![tactic(auto)]

mod changed;
mod child;
mod gone;
mod landing;
mod list;
mod lists;
mod named_nodes;
mod parts;
mod plain_bytes;
mod plain_node;
mod read_nodes;
mod shared_nodes;
mod sorted;
mod spelled_nodes;
mod top;
mod wide;

pub use child::{child_in, child_of, is_kept};
pub use gone::{list_all_nodes, list_stale_nodes};
pub use landing::{landing_lists, landing_lists_counted};
pub use lists::Written;
pub use named_nodes::NamedNodes;
pub use plain_node::plain_of;
