// What a landing writes and makes stale, from the top down.
ghost use Rattle.std.specs.Prelude.{◌≡◌, ℕ, ◌+◌, ◌≤◌, ◌∷◌, [], Option, length, IfOk, T};
ghost use Rattle.std.specs.Option.{option_copied};
ghost use Rattle.std.specs.FinMap.{is_sorted};
ghost use Rattle.std.specs.List.Sorted.{IsPermutation};
ghost use Rattle.jf_path.specs.Keys.{key_cmp};
ghost use Rattle.jf_hash.specs.Slots.{Part};
ghost use Rattle.jf_model.specs.Nodes.{Path};
ghost use Rattle.jf_node.specs.Children.{content};
ghost use Rattle.jf_model.specs.Walk.{with_root};
ghost use Rattle.jf_diff.specs.OptionalNodes.{IsAtDepth, IsOfVersion};
ghost use Rattle.jf_diff.specs.Plains.{fresh_under, plain_under};
ghost use Rattle.jf_diff.specs.Tops.{IsFreshUnder, IsStaleUnder, old_name};

use crate::list::{list_fresh, list_stale};
use crate::shared_nodes::SharedNodes;
use crate::sorted::sorted_names;
use jf_node::Link;
use jf_path::{Memory, NameList, NibblePath, NodeName};
use jf_steps::Steps;
use std::alloc::Global;
use std::sync::ledger::Ledger;

/// The name of the top that a version wrote.
pub(crate) fn top_name(version: u64) -> NodeName
    ensures version { result.version ≡ version }
    ensures path { result.path ≡ [] }
{
    NodeName {
        version,
        path: NibblePath::empty(),
    }
}

/// A list of one name.
fn one_name(alloc: Global, name: NodeName) -> Result<NameList, Memory>
    ensures { IfOk result (λ l. l ≡ name ∷ []) }
{
    let mut names = NameList::new(alloc);
    names.push(name)?;
    Ok(names)
}

/// A list of one node.
fn one_node(alloc: Global, name: NodeName, link: Option<&Link>) -> Result<SharedNodes, Memory>
    ensures { IfOk result (λ l. l ≡ (name, plain_under (option_copied link.entry) []) ∷ []) }
{
    let mut nodes = SharedNodes::new(alloc);
    nodes.push(name, link)?;
    Ok(nodes)
}

/// The nodes that the landing of `version` wrote: at least the top. A step is a node gone into.
pub(crate) fn fresh_of<L: Ledger>(
    alloc: Global,
    top: Option<&Link>,
    version: u64,
    steps: &mut Steps<L>,
) -> Result<SharedNodes, Memory>
    requires top { IsAtDepth 0 (option_copied top) }
    requires own { IsOfVersion version (option_copied top) }
    ensures lists { IfOk result (λ l. (es : Part) (before : Path → Option ℕ) → IsFreshUnder version es before (option_copied top.entry) → l ≡ with_root es (content (option_copied top.entry)) (fresh_under version (option_copied top.entry))) }
    ensures cost { IfOk result (λ l. steps.new ≤ steps.old + length l) }
{
    match top {
        None => one_node(alloc, top_name(version), None),
        Some(link) => {
            link.know();
            let mut nodes = SharedNodes::new(alloc);
            list_fresh(link, version, &NibblePath::empty(), &mut nodes, steps)?;
            Ok(nodes)
        }
    }
}

/// The names of the nodes of the version `head`, whose top is `old`, that the landing of `version` made stale: at least
/// the old top. A step is a node gone into.
pub(crate) fn stale_of<L: Ledger>(
    alloc: Global,
    old: Option<&Link>,
    head: u64,
    top: Option<&Link>,
    version: u64,
    steps: &mut Steps<L>,
) -> Result<NameList, Memory>
    requires old { IsAtDepth 0 (option_copied old) }
    requires top { IsAtDepth 0 (option_copied top) }
    requires own { IsOfVersion version (option_copied top) }
    requires landed { IsStaleUnder version (option_copied old) (option_copied top) }
    requires sorted { T (is_sorted key_cmp (content (option_copied top))) }
    ensures lists { IfOk result (λ l. IsPermutation (with_root (content (option_copied top.entry)) (content (option_copied old.entry)) (old_name head (option_copied old.entry))) l) }
    ensures cost { IfOk result (λ l. steps.new ≤ steps.old + length l) }
{
    match old {
        None => one_name(alloc, top_name(head)),
        Some(link) => {
            link.know();
            let mut names = Vec::new(alloc);
            list_stale(link, top, version, &NibblePath::empty(), &mut names, steps)?;
            Ok(sorted_names(names))
        }
    }
}
