// Groups of names in the order of their versions, each version once. A group may be empty: it has no marks then.
ghost use Rattle.std.specs.Prelude.{◌≡◌, ◌<◌, length, false, IfOk, IfErr};
ghost use Rattle.std.specs.List.{HoldsAt};
ghost use Rattle.std.specs.List.Sorted.{IsPartitionPoint, IsSearchInRange};
ghost use Rattle.jf_stale.specs.Groups.{AreRisingGroups, marks_in, begins_empty};

use crate::names::NamesSince;
use jf_path::Memory;
use std::cmp::Ordering;
use std::collections::VecDeque;

/// The place of the group of a version, or the place that it would have. Looks at the last group first.
pub(crate) fn place_of(groups: &VecDeque<NamesSince>, since: u64) -> Result<usize, usize>
    requires { AreRisingGroups groups.now.items }
    ensures within { IsSearchInRange result (length groups.now.items) }
    ensures there { IfOk result (HoldsAt (λ g. g.0 ≡ since) groups.now.items) }
    ensures gap { IfErr result (IsPartitionPoint (λ g. g.0 < since) (λ g. since < g.0) groups.now.items) }
{
    let Some(last) = groups.back() else {
        return Err(0);
    };
    match last.since().cmp(&since) {
        Ordering::Less => Err(groups.len()),
        Ordering::Equal => Ok(groups.len() - 1),
        Ordering::Greater => groups.binary_search_by_key(&since, |group| group.since()),
    }
}

/// The place of the group of a version, which is made if it isn't there. No mark is added. If memory runs out, the
/// groups stay as they are.
pub(crate) fn group_of(groups: &mut VecDeque<NamesSince>, since: u64) -> Result<usize, Memory>
    requires { AreRisingGroups groups.old.items }
    ensures within { IfOk result (λ i. i < length groups.new.items) }
    ensures there { IfOk result (HoldsAt (λ g. g.0 ≡ since) groups.new.items) }
    ensures sorted { AreRisingGroups groups.new.items }
    ensures marks { marks_in groups.new.items ≡ marks_in groups.old.items }
{
    match place_of(groups, since) {
        Ok(at) => Ok(at),
        Err(at) => {
            let group = NamesSince::new(*groups.allocator(), since);
            groups.insert(at, group)?;
            Ok(at)
        }
    }
}

/// Removes the group at a place if it has no names.
pub(crate) fn drop_if_empty(groups: &mut VecDeque<NamesSince>, at: usize)
    requires within { at < length groups.old.items }
    requires sorted { AreRisingGroups groups.old.items }
    ensures sorted { AreRisingGroups groups.new.items }
    ensures marks { marks_in groups.new.items ≡ marks_in groups.old.items }
{
    if groups[at].is_empty() {
        let _ = groups.remove(at);
    }
}

/// Removes the groups at the front that have no names.
pub(crate) fn drop_empty(groups: &mut VecDeque<NamesSince>)
    requires { AreRisingGroups groups.old.items }
    ensures sorted { AreRisingGroups groups.new.items }
    ensures marks { marks_in groups.new.items ≡ marks_in groups.old.items }
    ensures nonempty { begins_empty groups.new.items ≡ false }
{
    while is_first_empty(groups) {
        let _ = groups.pop_front();
    }
}

// Whether the first group has no names.
fn is_first_empty(groups: &VecDeque<NamesSince>) -> bool
    ensures { result ≡ begins_empty groups.now.items }
{
    match groups.front() {
        Some(first) => first.is_empty(),
        None => false,
    }
}
