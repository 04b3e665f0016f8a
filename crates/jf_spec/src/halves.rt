// Taking nodes apart, and making them: each is counted as a step.
ghost use Rattle.std.specs.Prelude.{◌≡◌, ◌+◌, ◌<◌, ◌≤◌, true, false, ◌∷◌, [], ◌++◌, length, IfOk, min};
ghost use Rattle.jf_hash.specs.Roots.{zeros, ones};
ghost use Rattle.jf_hash.specs.Parts.{HaveBit};
ghost use Rattle.jf_spec.specs.Forms.{form_entries, IsSoundTreeForm};
ghost use Rattle.jf_spec.specs.declared.node.Form.TheVariants as form;

use crate::held::Held;
use crate::node::{BranchBody, Form, LeafBody, Node};
use jf_node::SharedRange;
use jf_path::{Bytes, Key, Memory, bit};
use jf_steps::Steps;
use std::alloc::Global;
use std::sync::Arc;
use std::sync::ledger::Ledger;

// The entries of a node whose next bit is 0, and those whose next bit is 1.
#[derive(Drop)]
pub(crate) struct Halves {
    pub(crate) zeros: Node,
    pub(crate) ones: Node,
}

// The halves of a node of a stored tree.
fn stored_halves(range: &SharedRange) -> Result<Halves, Memory>
    requires { range.now.depth < 256 }
    ensures zeros { IfOk result (λ h. h.zeros ≡ record { depth = range.now.depth + 1; entries = zeros range.now.depth range.now.entries }) }
    ensures ones { IfOk result (λ h. h.ones ≡ record { depth = range.now.depth + 1; entries = ones range.now.depth range.now.entries }) }
{
    let range = range.range();
    let zeros = range.zeros().share()?;
    let ones = range.ones().share()?;
    Ok(Halves {
        zeros: Node::stored_node(zeros),
        ones: Node::stored_node(ones),
    })
}

// The halves of the node of one entry at a depth.
fn leaf_halves(depth: u64, leaf: &Arc<LeafBody, Global>) -> Result<Halves, Memory>
    requires depth { depth < 256 }
    requires sound { IsSoundTreeForm depth (form.Leaf leaf.now) }
    ensures zeros { IfOk result (λ h. h.zeros ≡ record { depth = depth + 1; entries = zeros depth (form_entries (form.Leaf leaf.now)) }) }
    ensures ones { IfOk result (λ h. h.ones ≡ record { depth = depth + 1; entries = ones depth (form_entries (form.Leaf leaf.now)) }) }
{
    let one = bit(&leaf.key, depth as usize);
    let leaf = Arc::try_clone(leaf)?;
    let node = Node {
        depth: depth + 1,
        form: Form::Leaf(leaf),
    };
    let empty = Node::empty(depth + 1);
    if one {
        Ok(Halves {
            zeros: empty,
            ones: node,
        })
    } else {
        Ok(Halves {
            zeros: node,
            ones: empty,
        })
    }
}

impl Node {
    // How many entries a node has, up to two.
    fn up_to_two(&self) -> u64
        ensures { result ≡ min 2 (length self.now.entries) }
    {
        match self.held_content() {
            Held::Nothing => 0,
            Held::One(_) => 1,
            Held::More => 2,
        }
    }

    // A node of at most one entry, at another depth.
    fn at(self, depth: u64) -> Node
        requires lone { length self.entries ≤ 1 }
        requires depth { depth ≤ 256 }
        ensures { result ≡ record { depth = depth; entries = self.entries } }
    {
        let Node { form, .. } = self;
        match form {
            Form::Stored(range) => Node::stored_node(range.at(depth)),
            Form::Leaf(leaf) => Node {
                depth,
                form: Form::Leaf(leaf),
            },
            Form::Branch(_) => unreachable!(),
        }
    }

    // The node of two halves that have at least two entries together.
    fn branch(alloc: Global, depth: u64, zeros: Node, ones: Node) -> Result<Node, Memory>
        requires depth { depth < 256 }
        requires zeros_depth { zeros.depth ≡ depth + 1 }
        requires ones_depth { ones.depth ≡ depth + 1 }
        requires zeros { HaveBit depth false zeros.entries }
        requires ones { HaveBit depth true ones.entries }
        requires plural { 2 ≤ length (zeros.entries ++ ones.entries) }
        ensures { IfOk result (λ x. x ≡ record { depth = depth; entries = zeros.entries ++ ones.entries }) }
    {
        let hash = jf_hash::inner(&zeros.hash(), &ones.hash());
        let branch = Arc::new(alloc, BranchBody { zeros, ones, hash })?;
        Ok(Node {
            depth,
            form: Form::Branch(branch),
        })
    }

    // Takes a node apart: one step.
    pub(crate) fn halves<L: Ledger>(&self, steps: &mut Steps<L>) -> Result<Halves, Memory>
        requires { self.now.depth < 256 }
        ensures zeros { IfOk result (λ h. h.zeros ≡ record { depth = self.now.depth + 1; entries = zeros self.now.depth self.now.entries }) }
        ensures ones { IfOk result (λ h. h.ones ≡ record { depth = self.now.depth + 1; entries = ones self.now.depth self.now.entries }) }
        ensures cost { steps.new ≡ steps.old + 1 }
    {
        steps.tick();
        match &self.form {
            Form::Stored(range) => stored_halves(range),
            Form::Leaf(leaf) => leaf_halves(self.depth, leaf),
            Form::Branch(branch) => {
                let zeros = branch.zeros.share()?;
                let ones = branch.ones.share()?;
                Ok(Halves { zeros, ones })
            }
        }
    }

    // Makes the node of one entry: one step.
    pub(crate) fn leaf<L: Ledger>(
        alloc: Global,
        depth: u64,
        key: &Key,
        value: &[u8],
        steps: &mut Steps<L>,
    ) -> Result<Node, Memory>
        requires { depth ≤ 256 }
        ensures node { IfOk result (λ x. x ≡ record { depth = depth; entries = (key.now, value.now) ∷ [] }) }
        ensures cost { steps.new ≡ steps.old + 1 }
    {
        steps.tick();
        let hash = jf_hash::leaf(key, &jf_hash::value(value));
        let value = Bytes::copy_of(alloc, value)?;
        let key = *key;
        let leaf = Arc::new(alloc, LeafBody { key, value, hash })?;
        Ok(Node {
            depth,
            form: Form::Leaf(leaf),
        })
    }

    // Makes the node of two halves: one step. If they have at most one entry together, it is the node of that entry, or
    // the empty one, at this depth.
    pub(crate) fn join<L: Ledger>(
        alloc: Global,
        depth: u64,
        halves: Halves,
        steps: &mut Steps<L>,
    ) -> Result<Node, Memory>
        requires depth { depth < 256 }
        requires zeros_depth { halves.zeros.depth ≡ depth + 1 }
        requires ones_depth { halves.ones.depth ≡ depth + 1 }
        requires zeros { HaveBit depth false halves.zeros.entries }
        requires ones { HaveBit depth true halves.ones.entries }
        ensures node { IfOk result (λ x. x ≡ record { depth = depth; entries = halves.zeros.entries ++ halves.ones.entries }) }
        ensures cost { steps.new ≡ steps.old + 1 }
    {
        steps.tick();
        let Halves { zeros, ones } = halves;
        let in_ones = ones.up_to_two();
        if zeros.up_to_two() + in_ones >= 2 {
            Node::branch(alloc, depth, zeros, ones)
        } else if in_ones == 0 {
            Ok(zeros.at(depth))
        } else {
            Ok(ones.at(depth))
        }
    }
}
