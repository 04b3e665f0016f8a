// Lists of named nodes, and lists of names alone.
ghost use Rattle.std.specs.Prelude.{◌≡◌, [], ◌∷◌, ◌++◌, length, map, IsTrue, IfOk, OnOk, OnErr};
ghost use Rattle.jf_path.specs.Names.{are_rising};

use crate::memory::Memory;
use crate::name::NodeName;
use crate::node::PlainNode;
use std::alloc::Global;
use std::marker::Model;

/// The nodes that a landing writes, with their names, in the order of the names.
#[derive(Debug, Drop)]
pub struct FreshList {
    nodes: Vec<(NodeName, PlainNode)>,
}

impl Model for FreshList {
    ghost use Rattle.std.specs.Prelude.{List, IsTrue, map};
    ghost use Rattle.jf_path.specs.declared.name.NodeName.{NodeName};
    ghost use Rattle.jf_path.specs.declared.node.PlainNode.{PlainNode};

    ghost Value = { List (NodeName × PlainNode) };

    ghost use Rattle.jf_path.specs.Names.{are_rising};

    ghost view = { λ l. l.nodes.items };

    ghost invariant = { λ l. IsTrue (are_rising (map (λ x. x.0) l.nodes.items)) };
}

impl FreshList {
    /// An empty list.
    pub fn new(alloc: Global) -> FreshList
        // The result has no nodes.
        ensures { result ≡ [] }
    {
        FreshList {
            nodes: Vec::new(alloc),
        }
    }

    /// An empty list with room for `n` nodes.
    pub fn with_capacity(alloc: Global, n: u64) -> Result<FreshList, Memory>
        // After Ok, the result has no nodes.
        ensures { IfOk result (λ l. l ≡ []) }
    {
        Ok(FreshList {
            nodes: Vec::with_capacity(alloc, n as usize)?,
        })
    }

    /// These nodes, whose names rise. They are taken over and not copied.
    pub fn of(nodes: Vec<(NodeName, PlainNode)>) -> FreshList
        // The names of the nodes rise strictly.
        requires { IsTrue (are_rising (map (λ x. x.0) nodes.items)) }
        // The result has these nodes, in this order.
        ensures { result ≡ nodes.items }
    {
        FreshList { nodes }
    }

    /// The number of elements.
    pub fn len(&self) -> u64
        // The result is the number of nodes.
        ensures { result ≡ length self.now }
    {
        self.nodes.len() as u64
    }

    /// The names and nodes.
    pub fn as_slice(&self) -> &[(NodeName, PlainNode)]
        // The slice holds the names and nodes of the list.
        ensures value { result.now ≡ self.now }
        // The names of the nodes rise strictly.
        ensures sorted { IsTrue (are_rising (map (λ x. x.0) self.now)) }
    {
        &self.nodes
    }

    /// Adds a node after all that are there. If memory runs out, it is dropped, and the list is unchanged.
    pub fn push(&mut self, item: (NodeName, PlainNode)) -> Result<(), Memory>
        // With the node at the end of the list, the names rise strictly.
        requires { IsTrue (are_rising (map (λ x. x.0) (self.old ++ item ∷ []))) }
        // After Ok, the list is the old one with the node at its end.
        ensures ok { OnOk result (self.new ≡ self.old ++ item ∷ []) }
        // After Err, the list is unchanged.
        ensures err { OnErr result (self.new ≡ self.old) }
    {
        self.nodes.push(item)?;
        Ok(())
    }
}

/// Names of nodes, in the order of names.
#[derive(Debug, Drop)]
pub struct NameList {
    names: Vec<NodeName>,
}

impl Model for NameList {
    ghost use Rattle.std.specs.Prelude.{List, IsTrue};
    ghost use Rattle.jf_path.specs.declared.name.NodeName.{NodeName};

    ghost Value = { List NodeName };

    ghost use Rattle.jf_path.specs.Names.{are_rising};

    ghost view = { λ l. l.names.items };

    ghost invariant = { λ l. IsTrue (are_rising l.names.items) };
}

impl NameList {
    /// An empty list.
    pub fn new(alloc: Global) -> NameList
        // The result has no names.
        ensures { result ≡ [] }
    {
        NameList {
            names: Vec::new(alloc),
        }
    }

    /// An empty list with room for `n` names.
    pub fn with_capacity(alloc: Global, n: u64) -> Result<NameList, Memory>
        // After Ok, the result has no names.
        ensures { IfOk result (λ l. l ≡ []) }
    {
        Ok(NameList {
            names: Vec::with_capacity(alloc, n as usize)?,
        })
    }

    /// These names, which rise. They are taken over and not copied.
    pub fn of(names: Vec<NodeName>) -> NameList
        // The names rise strictly.
        requires { IsTrue (are_rising names.items) }
        // The result has these names, in this order.
        ensures { result ≡ names.items }
    {
        NameList { names }
    }

    /// The number of elements.
    pub fn len(&self) -> u64
        // The result is the number of names.
        ensures { result ≡ length self.now }
    {
        self.names.len() as u64
    }

    /// The names.
    pub fn as_slice(&self) -> &[NodeName]
        // The slice holds the names of the list.
        ensures value { result.now ≡ self.now }
        // The names rise strictly.
        ensures sorted { IsTrue (are_rising self.now) }
    {
        &self.names
    }

    /// Adds a name after all that are there. If memory runs out, the list is unchanged.
    pub fn push(&mut self, name: NodeName) -> Result<(), Memory>
        // With the name at the end of the list, the names rise strictly.
        requires { IsTrue (are_rising (self.old ++ name ∷ [])) }
        // After Ok, the list is the old one with the name at its end.
        ensures ok { OnOk result (self.new ≡ self.old ++ name ∷ []) }
        // After Err, the list is unchanged.
        ensures err { OnErr result (self.new ≡ self.old) }
    {
        self.names.push(name)?;
        Ok(())
    }
}

/// Nodes in any order, with their names and the versions from which on they are stale, `u64::MAX` if they aren't.
#[derive(Debug, Drop)]
pub struct LiveList {
    nodes: Vec<(NodeName, PlainNode, u64)>,
}

impl Model for LiveList {
    ghost use Rattle.std.specs.Prelude.{List, ℕ};
    ghost use Rattle.jf_path.specs.declared.name.NodeName.{NodeName};
    ghost use Rattle.jf_path.specs.declared.node.PlainNode.{PlainNode};

    ghost Value = { List (NodeName × PlainNode × ℕ) };

    ghost view = { λ l. l.nodes.items };
}

impl LiveList {
    /// An empty list.
    pub fn new(alloc: Global) -> LiveList
        // The result has no nodes.
        ensures { result ≡ [] }
    {
        LiveList {
            nodes: Vec::new(alloc),
        }
    }

    /// An empty list with room for `n` nodes.
    pub fn with_capacity(alloc: Global, n: u64) -> Result<LiveList, Memory>
        // After Ok, the result has no nodes.
        ensures { IfOk result (λ l. l ≡ []) }
    {
        Ok(LiveList {
            nodes: Vec::with_capacity(alloc, n as usize)?,
        })
    }

    /// The number of elements.
    pub fn len(&self) -> u64
        // The result is the number of nodes.
        ensures { result ≡ length self.now }
    {
        self.nodes.len() as u64
    }

    /// The names, nodes and versions.
    pub fn as_slice(&self) -> &[(NodeName, PlainNode, u64)]
        // The slice holds the names, nodes and versions of the list.
        ensures { result.now ≡ self.now }
    {
        &self.nodes
    }

    /// Adds a node at the end. If memory runs out, it is dropped, and the list is unchanged.
    pub fn push(&mut self, item: (NodeName, PlainNode, u64)) -> Result<(), Memory>
        // After Ok, the list is the old one with the node at its end.
        ensures ok { OnOk result (self.new ≡ self.old ++ item ∷ []) }
        // After Err, the list is unchanged.
        ensures err { OnErr result (self.new ≡ self.old) }
    {
        self.nodes.push(item)?;
        Ok(())
    }
}
