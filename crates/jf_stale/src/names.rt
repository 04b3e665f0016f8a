// The names of the nodes that are stale since one version.
ghost use Rattle.std.specs.Prelude.{◌≡◌, ◌+◌, ◌<◌, ◌==◌, [], ◌∷◌, length, if◌then◌else◌, OnOk, OnErr, IfOk, IfErr};
ghost use Rattle.std.specs.List.{HoldsAt, list_any};
ghost use Rattle.std.specs.List.Sorted.{IsPartitionPoint, IsSearchInRange};
ghost use Rattle.std.specs.Ordering.{eq_by_cmp};
ghost use Rattle.std.specs.declared.cmp.Ordering.TheVariants.{Less, Greater};
ghost use Rattle.jf_path.specs.Names.{name_cmp};
ghost use Rattle.jf_stale.specs.Groups.{AreAscendingNames, with_name, without_name};

use jf_path::{Memory, NodeName};
use std::alloc::Global;
use std::cmp::Ordering;
use std::collections::VecDeque;
use std::marker::Model;

/// A version, and the names of the nodes that are stale since then, in ascending order, each once.
#[derive(Drop)]
pub(crate) struct NamesSince {
    since: u64,
    names: VecDeque<NodeName>,
}

impl Model for NamesSince {
    ghost use Rattle.jf_stale.specs.Groups.{NameGroup, AreAscendingNames};

    ghost Value = { NameGroup };

    ghost view = { λ g. (g.since, g.names.items) };

    ghost invariant = { λ g. AreAscendingNames g.names.items };
}

impl NamesSince {
    /// No names since a version.
    pub(crate) fn new(alloc: Global, since: u64) -> NamesSince
        ensures { result ≡ (since, []) }
    {
        NamesSince {
            since,
            names: VecDeque::new(alloc),
        }
    }

    /// The version.
    pub(crate) fn since(&self) -> u64
        ensures { result ≡ self.now.0 }
    {
        self.since
    }

    /// Whether there are no names.
    pub(crate) fn is_empty(&self) -> bool
        ensures { result ≡ (length self.now.1 == 0) }
    {
        self.names.is_empty()
    }

    /// Makes room for exactly so many more names. The names stay as they are, also if memory runs out.
    pub(crate) fn make_room(&mut self, more: usize) -> Result<(), Memory>
        ensures { self.new ≡ self.old }
    {
        self.names.reserve_exact(more)?;
        Ok(())
    }

    /// Adds a name, and returns whether it wasn't there before. If memory runs out, the names stay as they are.
    pub(crate) fn add(&mut self, name: NodeName) -> Result<bool, Memory>
        ensures ok { OnOk result (self.new ≡ (self.old.0, with_name name self.old.1)) }
        ensures count { IfOk result (λ fresh. length self.new.1 ≡ (if fresh then length self.old.1 + 1 else length self.old.1)) }
        ensures err { OnErr result (self.new ≡ self.old) }
    {
        match place_of(&self.names, &name) {
            Ok(_) => Ok(false),
            Err(at) => {
                self.names.insert(at, name)?;
                Ok(true)
            }
        }
    }

    /// Removes a name, and returns whether it was there.
    pub(crate) fn remove(&mut self, name: &NodeName) -> bool
        ensures found { result ≡ list_any (eq_by_cmp name_cmp name.now) self.old.1 }
        ensures others { self.new ≡ (self.old.0, without_name name.now self.old.1) }
        ensures count { length self.old.1 ≡ (if result then length self.new.1 + 1 else length self.new.1) }
    {
        match place_of(&self.names, name) {
            Ok(at) => {
                let _ = self.names.remove(at);
                true
            }
            Err(_) => false,
        }
    }

    /// Removes and returns the least name.
    #[tactic(auto, using(crate::proofs::NameLaws::rest_ascends))]
    pub(crate) fn take_first(&mut self) -> NodeName
        requires { 0 < length self.old.1 }
        ensures since { self.new.0 ≡ self.old.0 }
        ensures names { self.old.1 ≡ result ∷ self.new.1 }
    {
        let least = self.names[0];
        let _ = self.names.pop_front();
        least
    }
}

// The place of a name in ascending names, or the place that it would have. Looks at the last name first.
fn place_of(names: &VecDeque<NodeName>, name: &NodeName) -> Result<usize, usize>
    requires { AreAscendingNames names.now.items }
    ensures within { IsSearchInRange result (length names.now.items) }
    ensures there { IfOk result (HoldsAt (λ n. n ≡ name.now) names.now.items) }
    ensures gap { IfErr result (IsPartitionPoint (λ n. name_cmp n name.now ≡ Less) (λ n. name_cmp n name.now ≡ Greater) names.now.items) }
{
    let Some(last) = names.back() else {
        return Err(0);
    };
    match last.cmp(name) {
        Ordering::Less => Err(names.len()),
        Ordering::Equal => Ok(names.len() - 1),
        Ordering::Greater => names.binary_search(name),
    }
}
