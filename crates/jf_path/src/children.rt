// The children of an internal node: at most one for each of the 16 nibbles.
ghost use Rattle.std.specs.Prelude.{◌≡◌, [], ◌∷◌, ◌++◌, length, IfOk, OnOk, OnErr};
ghost use Rattle.jf_path.specs.Nodes.{ChildrenRiseFrom};

use crate::memory::Memory;
use crate::nibbles::Nibble;
use std::alloc::Global;
use std::marker::Model;

/// What an internal node says of a child: its place, the version that wrote it, its hash, whether it is a leaf, and the
/// number of entries below it, 0 if the node is of format 1, which has no counts.
#[derive(Clone, Copy, Debug, PartialEq, Eq)]
pub struct Child {
    pub nibble: Nibble,
    pub version: u64,
    pub hash: [u8; 32],
    pub leaf: bool,
    pub count: u64,
}

/// The children of an internal node in the order of their nibbles, each nibble at most once.
#[derive(Debug, Drop)]
pub struct Children {
    children: Vec<Child>,
}

impl Model for Children {
    ghost use Rattle.std.specs.Prelude.{List};
    ghost use Rattle.jf_path.specs.declared.children.Child.{Child};

    ghost Value = { List Child };

    ghost use Rattle.jf_path.specs.Nodes.{ChildrenRiseFrom};

    ghost view = { λ c. c.children.items };

    ghost invariant = { λ c. ChildrenRiseFrom 0 c.children.items };
}

impl Children {
    /// An empty list.
    pub fn new(alloc: Global) -> Children
        // The result has no children.
        ensures { result ≡ [] }
    {
        Children {
            children: Vec::new(alloc),
        }
    }

    /// An empty list with room for `n` children.
    pub fn with_capacity(alloc: Global, n: u64) -> Result<Children, Memory>
        // After Ok, the result has no children.
        ensures { IfOk result (λ c. c ≡ []) }
    {
        Ok(Children {
            children: Vec::with_capacity(alloc, n as usize)?,
        })
    }

    /// Drops all children, and keeps their room.
    pub fn clear(&mut self)
        // No children are left.
        ensures { self.new ≡ [] }
    {
        self.children.clear();
    }

    /// The number of children.
    pub fn len(&self) -> u64
        // The result is the number of children.
        ensures { result ≡ length self.now }
    {
        self.children.len() as u64
    }

    /// The children.
    pub fn as_slice(&self) -> &[Child]
        // The slice holds the children of the list.
        ensures value { result.now ≡ self.now }
        // The nibbles of the children rise strictly.
        ensures sorted { ChildrenRiseFrom 0 self.now }
    {
        &self.children
    }

    /// Adds a child after all that are there. If memory runs out, the list is unchanged.
    pub fn push(&mut self, child: Child) -> Result<(), Memory>
        // With the child at the end of the list, the nibbles rise strictly.
        requires { ChildrenRiseFrom 0 (self.old ++ child ∷ []) }
        // After Ok, the list is the old one with the child at its end.
        ensures ok { OnOk result (self.new ≡ self.old ++ child ∷ []) }
        // After Err, the list is unchanged.
        ensures err { OnErr result (self.new ≡ self.old) }
    {
        self.children.push(child)?;
        Ok(())
    }
}
