// The bytes of a node by itself in a file of format 2, and how many they are, without a copy of its value; what it says
// of its children is put together in a list that serves one node after another.
ghost use Rattle.std.specs.Prelude.{◌≡◌, ◌≤◌, ◌++◌, [], length, OnOk};
ghost use Rattle.jf_codec.specs.declared.format.Format.TheVariants as format;
ghost use Rattle.jf_codec.specs.Spelling.{IsNode, node_bytes};
ghost use Rattle.jf_diff.specs.Plains.{children_list, plain_at, plain_under};

use crate::plain_node::{branches_of, children_into};
use jf_codec::{Format, inner_len, put_inner, put_leaf, put_node};
use jf_hash::Places;
use jf_node::{Link, Seen};
use jf_path::{Bytes, Children, Memory, PlainNode, know_versions};

/// The number of children of an inner node.
fn count_of_children(link: &Link) -> u32
    requires { 2 ≤ length link.now.entries }
    ensures { result ≡ length (children_list link.now) }
{
    let children = branches_of(link);
    children.know();
    children.children().rank(16) as u32
}

/// The number of bytes of a node by itself.
fn link_len(link: &Link) -> u64
    ensures { result ≡ length (node_bytes format.Two (plain_at link.now [])) }
{
    link.know();
    match link.view() {
        Seen::Leaf { value, .. } => 37 + value.len() as u64,
        Seen::Inner { .. } => inner_len(Format::Two, count_of_children(link)),
    }
}

/// The number of bytes of the node of an optional link by itself.
pub(crate) fn plain_len(link: &Option<Link>) -> u64
    ensures { result ≡ length (node_bytes format.Two (plain_under link.now [])) }
{
    match link {
        None => 1,
        Some(link) => link_len(link),
    }
}

/// Adds the bytes of a node by itself; `list` may have anything. If memory runs out, some of the bytes may follow what was
/// in `out`.
fn put_link(out: &mut Bytes, link: &Link, list: &mut Children) -> Result<(), Memory>
    ensures valid { OnOk result (IsNode format.Two (plain_at link.now [])) }
    ensures bytes { OnOk result (out.new ≡ out.old ++ node_bytes format.Two (plain_at link.now [])) }
{
    link.know();
    match link.view() {
        Seen::Leaf { key, value, .. } => put_leaf(out, key, value),
        Seen::Inner { .. } => {
            children_into(link, list)?;
            let children = list.as_slice();
            know_versions(children);
            put_inner(out, Format::Two, children)
        }
    }
}

/// Adds the bytes of the node of an optional link by itself; `list` may have anything. If memory runs out, some of the bytes
/// may follow what was in `out`.
pub(crate) fn put_plain(
    out: &mut Bytes,
    link: &Option<Link>,
    list: &mut Children,
) -> Result<(), Memory>
    ensures valid { OnOk result (IsNode format.Two (plain_under link.now [])) }
    ensures bytes { OnOk result (out.new ≡ out.old ++ node_bytes format.Two (plain_under link.now [])) }
{
    match link {
        None => put_node(out, Format::Two, &PlainNode::Null),
        Some(link) => put_link(out, link, list),
    }
}
