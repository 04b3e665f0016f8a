// The index tells which nodes may be deleted when the floor rises: those marked stale since a version up to it.
ghost use Rattle.std.specs.Prelude.{◌≡◌, ◌+◌, ◌≤◌, ◌<◌, ◌↔◌, [], ◌∷◌, length, All, Contains, IsTrue, IsNone, IfSome, IfNone, IfOk, OnOk, OnErr};
ghost use Rattle.std.specs.declared.cmp.Ordering.TheVariants.{Less};
ghost use Rattle.jf_stale.specs.Marks.{AreAscendingMarks, mark_cmp, with_mark, without_mark};

use crate::groups::{drop_empty, drop_if_empty, group_of, place_of};
use crate::names::NamesSince;
use jf_path::{Memory, NodeName};
use std::alloc::Global;
use std::collections::VecDeque;
use std::marker::Model;

/// The marks of stale nodes. A mark is a version and the name of the node that is stale since then. Marks are in
/// ascending order, by version and then by name, each once.
#[derive(Drop)]
pub struct StaleIndex {
    groups: VecDeque<NamesSince>,
    count: u64,
}

impl Model for StaleIndex {
    ghost use Rattle.std.specs.Prelude.{List};
    ghost use Rattle.jf_stale.specs.Marks.{Mark};
    ghost use Rattle.jf_stale.specs.Groups.{marks_in, HoldMarks};

    ghost Value = { List Mark };

    ghost view = { λ s. marks_in s.groups.items };

    ghost invariant = { λ s. HoldMarks s.groups.items s.count };
}

impl StaleIndex {
    /// An index without marks.
    pub fn new(alloc: Global) -> StaleIndex
        ensures { result ≡ [] }
    {
        StaleIndex {
            groups: VecDeque::new(alloc),
            count: 0,
        }
    }

    /// The number of marks.
    pub fn len(&self) -> u64
        ensures count { result ≡ length self.now }
        ensures sorted { AreAscendingMarks self.now }
    {
        self.count
    }

    /// Makes room for exactly so many more names of a version. The marks stay as they are, also if memory runs out.
    pub fn make_room(&mut self, since: u64, more: usize) -> Result<(), Memory>
        ensures { self.new ≡ self.old }
    {
        if more == 0 {
            return Ok(());
        }
        let at = group_of(&mut self.groups, since)?;
        self.groups[at].make_room(more)
    }

    /// Marks a node as stale since a version. A mark that is there already is kept once. If memory runs out, the index
    /// is unchanged.
    pub fn mark(&mut self, since: u64, name: NodeName) -> Result<(), Memory>
        ensures ok { OnOk result (self.new ≡ with_mark (since, name) self.old) }
        ensures err { OnErr result (self.new ≡ self.old) }
    {
        let count = one_more(self.count)?;
        let at = group_of(&mut self.groups, since)?;
        if self.groups[at].add(name)? {
            self.count = count;
        }
        Ok(())
    }

    /// Removes a mark, and returns whether it was there.
    pub fn unmark(&mut self, since: u64, name: &NodeName) -> bool
        ensures found { IsTrue result ↔ Contains self.old (since, name.now) }
        ensures others { self.new ≡ without_mark (since, name.now) self.old }
    {
        let at = match place_of(&self.groups, since) {
            Ok(at) => at,
            Err(_) => return false,
        };
        if !self.groups[at].remove(name) {
            return false;
        }
        self.count -= 1;
        drop_if_empty(&mut self.groups, at);
        true
    }

    /// Removes and returns the least mark, if its version is at most `floor`. `None` if no mark has such a version.
    pub fn take_upto(&mut self, floor: u64) -> Option<(u64, NodeName)>
        ensures taken { IfSome result (λ m. self.old ≡ m ∷ self.new) }
        ensures least { IfSome result (λ m. All (λ k. mark_cmp m k ≡ Less) self.new) }
        ensures due { IfSome result (λ m. m.0 ≤ floor) }
        ensures given { IsNone result ↔ All (λ m. floor < m.0) self.old }
        ensures none { IfNone result (self.new ≡ self.old) }
    {
        drop_empty(&mut self.groups);
        let since = self.groups.front()?.since();
        if since > floor {
            return None;
        }
        let name = self.groups[0].take_first();
        self.count -= 1;
        drop_empty(&mut self.groups);
        Some((since, name))
    }
}

// One more than a number of marks. No memory holds so many that the sum doesn't fit.
fn one_more(count: u64) -> Result<u64, Memory>
    ensures { IfOk result (λ n. n ≡ count + 1) }
{
    count.checked_add(1).ok_or(Memory)
}
