// The nodes of speculative trees, which share what they have in common with other trees.
ghost use Rattle.std.specs.Prelude.{◌≡◌, ℕ, ◌+◌, ◌<◌, ◌≤◌, true, false, [], ◌∷◌, ◌++◌, length, IfOk};
ghost use Rattle.std.specs.Option.{option_copied};
ghost use Rattle.std.specs.FinMap.{find};
ghost use Rattle.jf_path.specs.Keys.{key_cmp};
ghost use Rattle.jf_hash.specs.Roots.{part_root};
ghost use Rattle.jf_spec.specs.Held.{HoldsEntries};

use crate::held::Held;
use jf_hash::Hash;
use jf_node::{RangeState, SharedRange};
use jf_path::{Bytes, Key, Memory, bit};
use std::alloc::Global;
use std::marker::Model;
use std::sync::Arc;

// A node of a binary tree that may be shared: a range of a stored tree, a new entry, or two new halves.
#[cycle(node)]
#[derive(Drop)]
pub(crate) struct Node {
    pub(crate) depth: u64,
    pub(crate) form: Form,
}

#[cycle(node)]
#[derive(Drop)]
pub(crate) enum Form {
    Stored(SharedRange),
    Leaf(Arc<LeafBody, Global>),
    Branch(Arc<BranchBody, Global>),
}

// An entry, and its hash.
#[derive(Drop)]
pub(crate) struct LeafBody {
    pub(crate) key: Key,
    pub(crate) value: Bytes,
    pub(crate) hash: Hash,
}

// Two halves, the entries whose next bit is 0 and those whose next bit is 1, two or more together, and their hash.
#[cycle(node)]
#[derive(Drop)]
pub(crate) struct BranchBody {
    pub(crate) zeros: Node,
    pub(crate) ones: Node,
    pub(crate) hash: Hash,
}

impl Model for Node {
    ghost use Rattle.jf_node.specs.RangeValue.{RangeValue};

    ghost Value = { RangeValue };

    ghost use Rattle.jf_spec.specs.Forms.{node_value, tree_levels, IsSoundTreeForm};

    ghost view = { λ n. node_value n.depth n.form };

    ghost invariant = { λ n. IsSoundTreeForm n.depth n.form };

    ghost size = { tree_levels };

    ghost use Rattle.jf_spec.specs.Falls.{tree_falls};

    ghost size_decreases = { λ n h. tree_falls n.depth n.form h };
}

impl Node {
    // The node without entries.
    pub(crate) fn empty(depth: u64) -> Node
        requires { depth ≤ 256 }
        ensures { result ≡ record { depth = depth; entries = [] } }
    {
        Node::stored_node(SharedRange::empty(depth))
    }

    // A node of a stored tree.
    pub(crate) fn stored_node(range: SharedRange) -> Node
        requires { range.depth ≤ 256 }
        ensures { result ≡ range }
    {
        Node {
            depth: range.range().depth(),
            form: Form::Stored(range),
        }
    }

    // The depth of the node, 0 to 256: the number of leading bits that say which keys belong to it.
    pub(crate) fn depth(&self) -> u64
        ensures { result ≡ self.now.depth }
    {
        self.depth
    }

    // Another handle on the same node.
    pub(crate) fn share(&self) -> Result<Node, Memory>
        ensures { IfOk result (λ x. x ≡ self.now) }
    {
        match &self.form {
            Form::Stored(range) => {
                let range = range.share()?;
                Ok(Node {
                    depth: self.depth,
                    form: Form::Stored(range),
                })
            }
            Form::Leaf(leaf) => {
                let leaf = Arc::try_clone(leaf)?;
                Ok(Node {
                    depth: self.depth,
                    form: Form::Leaf(leaf),
                })
            }
            Form::Branch(branch) => {
                let branch = Arc::try_clone(branch)?;
                Ok(Node {
                    depth: self.depth,
                    form: Form::Branch(branch),
                })
            }
        }
    }

    // The hash of the node at its depth.
    pub(crate) fn hash(&self) -> Hash
        ensures { result ≡ part_root self.now.depth self.now.entries }
    {
        match &self.form {
            Form::Stored(range) => range.range().hash(),
            Form::Leaf(leaf) => leaf.hash,
            Form::Branch(branch) => branch.hash,
        }
    }

    // What the node holds.
    pub(crate) fn held_content(&self) -> Held<'_>
        ensures { HoldsEntries self.now.entries result }
    {
        match &self.form {
            Form::Stored(range) => match range.range().state() {
                RangeState::Empty => Held::Nothing,
                RangeState::Leaf { key, .. } => Held::One(key),
                RangeState::More => Held::More,
            },
            Form::Leaf(leaf) => Held::One(&leaf.key),
            Form::Branch(_) => Held::More,
        }
    }

    // The value of a key, or `None` if no entry has it.
    pub(crate) fn get(&self, key: &Key) -> Option<&[u8]>
        ensures { option_copied result ≡ find key_cmp key.now self.now.entries }
    {
        match &self.form {
            Form::Stored(range) => range.range().get(key),
            Form::Leaf(leaf) => {
                if *key == leaf.key {
                    Some(leaf.value.as_slice())
                } else {
                    None
                }
            }
            Form::Branch(branch) => {
                if bit(key, self.depth as usize) {
                    branch.ones.get(key)
                } else {
                    branch.zeros.get(key)
                }
            }
        }
    }
}
