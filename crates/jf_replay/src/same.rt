// Whether a landing that was read writes what a landing that was built anew writes.
ghost use Rattle.std.specs.Prelude.{◌≡◌, ◌&&◌, bytes_eq, map, IfOk};
ghost use Rattle.std.specs.Cmp.Lexicographic.{pointwise};
ghost use Rattle.jf_codec.specs.Counted.{in_format};
ghost use Rattle.jf_payload.specs.Counted.{commit_in};
ghost use Rattle.jf_standing.specs.Same.{same_child, same_node, same_written, same_commit};
ghost use Rattle.jf_dir.specs.Directories.{landing_written};
ghost use Rattle.jf_replay.specs.Kept.{child_in_format, written_in_format};

use jf_codec::Format;
use jf_dir::NextVersion;
use jf_path::{Child, Key, Memory, NodeName, PlainNode};
use jf_payload::Commit;
use std::alloc::Global;

/// Whether a child is what the format keeps of another.
fn is_same_child(read: &Child, made: &Child, format: Format) -> bool
    ensures { result ≡ same_child read.now (child_in_format format made.now) }
{
    let count = match format {
        Format::One => 0,
        Format::Two => made.count,
    };
    read.nibble == made.nibble
        && read.version == made.version
        && read.hash == made.hash
        && read.leaf == made.leaf
        && read.count == count
}

/// Whether children are what the format keeps of others.
fn are_same_children(read: &[Child], made: &[Child], format: Format) -> bool
    ensures { result ≡ pointwise same_child read.now (map (child_in_format format) made.now) }
{
    if read.len() != made.len() {
        return false;
    }
    for (i, child) in read.iter().enumerate() {
        if !is_same_child(child, &made[i], format) {
            return false;
        }
    }
    true
}

/// Whether a node is what the format keeps of another.
pub(crate) fn is_same_node(read: &PlainNode, made: &PlainNode, format: Format) -> bool
    ensures { result ≡ same_node read.now (in_format format made.now) }
{
    match (read, made) {
        (PlainNode::Null, PlainNode::Null) => true,
        (
            PlainNode::Leaf { key, value },
            PlainNode::Leaf {
                key: made_key,
                value: made_value,
            },
        ) => is_same_leaf(key, value.as_slice(), made_key, made_value.as_slice()),
        (
            PlainNode::Inner { children },
            PlainNode::Inner {
                children: made_children,
            },
        ) => are_same_children(children.as_slice(), made_children.as_slice(), format),
        _ => false,
    }
}

/// Whether the key and the value of a leaf are those of another.
fn is_same_leaf(key: &Key, value: &[u8], made_key: &Key, made_value: &[u8]) -> bool
    ensures { result ≡ (bytes_eq key.now made_key.now && bytes_eq value.now made_value.now) }
{
    key == made_key && value == made_value
}

/// Whether a node that was read with its name is what the format keeps of another.
fn is_same_written(
    read: &(NodeName, PlainNode),
    made: &(NodeName, PlainNode),
    format: Format,
) -> bool
    ensures { result ≡ same_written read.now (written_in_format format made.now) }
{
    read.0 == made.0 && is_same_node(&read.1, &made.1, format)
}

/// Whether named nodes are what the format keeps of others.
fn are_same_nodes(
    read: &[(NodeName, PlainNode)],
    made: &[(NodeName, PlainNode)],
    format: Format,
) -> bool
    ensures { result ≡ pointwise same_written read.now (map (written_in_format format) made.now) }
{
    if read.len() != made.len() {
        return false;
    }
    for (i, node) in read.iter().enumerate() {
        if !is_same_written(node, &made[i], format) {
            return false;
        }
    }
    true
}

/// Whether a commit that was read writes what the format keeps of what the landing of a next version writes, whose nodes are
/// read back from their bytes.
pub(crate) fn is_same(
    alloc: Global,
    commit: &Commit,
    next: &NextVersion,
    format: Format,
) -> Result<bool, Memory>
    ensures { IfOk result (λ b. b ≡ same_commit commit.now (commit_in format (landing_written next.now))) }
{
    let landing = next.landing();
    let made = landing.fresh.plain_nodes(alloc)?;
    let fresh = are_same_nodes(commit.fresh.as_slice(), &made, format);
    Ok(
        commit.version == landing.version
            && commit.root == landing.root
            && fresh
            && commit.stale.as_slice() == landing.stale.as_slice(),
    )
}
