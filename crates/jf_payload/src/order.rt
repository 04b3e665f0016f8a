// An item that was read is added to its list only if it may come after the last one.
ghost use Rattle.std.specs.Prelude.{◌≡◌, ◌∷◌, ◌++◌, ◌+◌, ◌==◌, [], true, false, Err, OnOk, IsTrue};
ghost use Rattle.jf_path.specs.Names.{are_rising};
ghost use Rattle.jf_payload.specs.Spelling.{are_consecutive};
ghost use Rattle.jf_payload.specs.Reading.{fresh_rise, live_rise};

use crate::commits::Commits;
use crate::fault::RecordFault;
use crate::records::Commit;
use jf_path::{FreshList, LiveList, NameList, NodeName, PlainNode};

// Whether the names rise with this one at the end.
fn is_next_name(names: &NameList, name: &NodeName) -> bool
    ensures { result ≡ are_rising (names.now ++ name.now ∷ []) }
{
    let Some(last) = names.as_slice().last() else {
        return true;
    };
    last.cmp(name).is_lt()
}

/// Adds a name at the end. `Bad` if it isn't above the names of the list.
pub(crate) fn push_name(names: &mut NameList, name: NodeName) -> Result<(), RecordFault>
    ensures ok { OnOk result ((are_rising (names.old ++ name ∷ []) ≡ true) × (names.new ≡ names.old ++ name ∷ [])) }
    ensures bad { result ≡ Err RecordFault.Bad → are_rising (names.old ++ name ∷ []) ≡ false }
{
    if !is_next_name(names, &name) {
        return Err(RecordFault::Bad);
    }
    names.push(name)?;
    Ok(())
}

// Whether the names of nodes rise with this node at the end.
fn is_next_node(nodes: &FreshList, item: &(NodeName, PlainNode)) -> bool
    ensures { result ≡ fresh_rise (nodes.now ++ item.now ∷ []) }
{
    let Some(last) = nodes.as_slice().last() else {
        return true;
    };
    last.0.cmp(&item.0).is_lt()
}

/// Adds a node at the end. `Bad` if its name isn't above those of the list.
pub(crate) fn push_fresh(
    nodes: &mut FreshList,
    item: (NodeName, PlainNode),
) -> Result<(), RecordFault>
    ensures ok { OnOk result ((fresh_rise (nodes.old ++ item ∷ []) ≡ true) × (nodes.new ≡ nodes.old ++ item ∷ [])) }
    ensures bad { result ≡ Err RecordFault.Bad → fresh_rise (nodes.old ++ item ∷ []) ≡ false }
{
    if !is_next_node(nodes, &item) {
        return Err(RecordFault::Bad);
    }
    nodes.push(item)?;
    Ok(())
}

// Whether the names of nodes rise with this node at the end.
fn is_next_live(nodes: &LiveList, item: &(NodeName, PlainNode, u64)) -> bool
    requires { live_rise nodes.now ≡ true }
    ensures { result ≡ live_rise (nodes.now ++ item.now ∷ []) }
{
    let Some(last) = nodes.as_slice().last() else {
        return true;
    };
    last.0.cmp(&item.0).is_lt()
}

/// Adds a node at the end of a list whose names rise. `Bad` if its name isn't above those of the list.
pub(crate) fn push_live(
    nodes: &mut LiveList,
    item: (NodeName, PlainNode, u64),
) -> Result<(), RecordFault>
    requires { live_rise nodes.old ≡ true }
    ensures ok { OnOk result ((live_rise (nodes.old ++ item ∷ []) ≡ true) × (nodes.new ≡ nodes.old ++ item ∷ [])) }
    ensures bad { result ≡ Err RecordFault.Bad → live_rise (nodes.old ++ item ∷ []) ≡ false }
{
    if !is_next_live(nodes, &item) {
        return Err(RecordFault::Bad);
    }
    nodes.push(item)?;
    Ok(())
}

// Whether a version is one above another.
fn is_above_by_one(version: u64, last: u64) -> bool
    ensures { result ≡ (version == last + 1) }
{
    version > 0 && version - 1 == last
}

// Whether the versions rise by one with this landing at the end.
fn is_next_commit(commits: &Commits, commit: &Commit) -> bool
    requires { are_consecutive commits.now ≡ true }
    ensures { result ≡ are_consecutive (commits.now ++ commit.now ∷ []) }
{
    let Some(last) = commits.as_slice().last() else {
        return true;
    };
    is_above_by_one(commit.version, last.version)
}

/// Adds a landing at the end of a list whose versions rise by one. `Bad` if its version isn't the next one.
pub(crate) fn push_commit(commits: &mut Commits, commit: Commit) -> Result<(), RecordFault>
    requires { are_consecutive commits.old ≡ true }
    ensures ok { OnOk result ((are_consecutive (commits.old ++ commit ∷ []) ≡ true) × (commits.new ≡ commits.old ++ commit ∷ [])) }
    ensures bad { result ≡ Err RecordFault.Bad → are_consecutive (commits.old ++ commit ∷ []) ≡ false }
{
    if !is_next_commit(commits, &commit) {
        return Err(RecordFault::Bad);
    }
    commits.push(commit)?;
    Ok(())
}
