// The outcome of an update of a node, or of its children.

use jf_node::{Link, Sixteen};
use jf_path::Bitmap;

/// The outcome of an update of a node, or of a place without one.
#[derive(Drop)]
pub(crate) enum Outcome {
    /// The entries are unchanged.
    Same,
    /// The entries changed: the new node, or `None` if no entry remains.
    New(Option<Link>),
}

/// The children of a node after a batch, and which of them have other entries than before.
#[derive(Drop)]
pub(crate) struct NewChildren {
    pub(crate) children: Sixteen,
    pub(crate) changed: Bitmap,
}
