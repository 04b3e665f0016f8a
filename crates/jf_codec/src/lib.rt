//! Names and nodes in bytes, in both formats of nodes. `specs/` says how each is spelled, and which fault a reader
//! finds first in bytes that begin with no spelling.
#![tactic(auto)]

mod bitmaps;
mod fault;
mod fields;
mod format;
mod laws;
mod length;
mod name;
mod reading;
mod tags;
mod writing;

pub use fault::CodecFault;
pub use fields::{
    front_of, key_at, put_u16, put_u32, put_u64, strip_front, u16_at, u32_at, u64_at,
};
pub use format::Format;
pub use laws::{one_name_in_front, one_node_in_front, one_spelling};
pub use length::{inner_len, name_len, node_len};
pub use name::{decode_name, encode_name, name_at, put_name};
pub use reading::{decode_node, decode_whole, leaf_at, node_at};
pub use writing::{encode_node, put_inner, put_leaf, put_node};
