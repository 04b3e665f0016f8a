//! What every other crate is made of: keys, their bits and nibbles; paths and names of nodes; plain nodes and lists of
//! them; bytes; and the fault `Memory`.
#![tactic(auto)]

mod bitmap;
mod bytes;
mod children;
mod fault;
mod key;
mod laws;
mod limits;
mod lists;
mod memory;
mod name;
mod nibbles;
mod node;
mod node_lists;
mod path;
mod shared_bytes;

pub use bitmap::Bitmap;
pub use bytes::Bytes;
pub use children::{Child, Children};
pub use fault::PathFault;
pub use key::{Key, bit, common_bits, nibble};
pub use laws::{know_bytes, know_entries, know_key, know_name, know_versions};
pub use limits::{MAX_FORKS, MAX_PINS, MAX_SESSIONS, MAX_VALUE, MAX_WORKERS};
pub use lists::{HashList, Pairs};
pub use memory::Memory;
pub use name::NodeName;
pub use nibbles::Nibble;
pub use node::PlainNode;
pub use node_lists::{FreshList, LiveList, NameList};
pub use path::NibblePath;
pub use shared_bytes::SharedBytes;
