// What is listed of a part of two trees, one of which stands in the place of the other after a landing: of the two tops
// alone, and from their children at one nibble down.
ghost use Rattle.std.specs.Prelude.{◌≡◌, ℕ, ◌+◌, ◌<◌, ◌∷◌, [], Option, length, IfOk};
ghost use Rattle.std.specs.Option.{option_copied};
ghost use Rattle.jf_hash.specs.Slots.{Part};
ghost use Rattle.jf_model.specs.Nodes.{Path};
ghost use Rattle.jf_node.specs.Children.{content};
ghost use Rattle.jf_diff.specs.Below.{listed_below};
ghost use Rattle.jf_diff.specs.OptionalNodes.{IsAtDepth};
ghost use Rattle.jf_diff.specs.PartLists.{ArePartLists, AreTopLists};
ghost use Rattle.jf_diff.specs.Plains.{fresh_under};
ghost use Rattle.jf_diff.specs.Tops.{IsFreshUnder, IsStaleUnder, old_name};

use crate::list::{list_fresh_at, list_stale_at};
use crate::named_nodes::NamedNodes;
use crate::shared_nodes::SharedNodes;
use crate::top::top_name;
use jf_node::Link;
use jf_path::{Memory, Nibble, NibblePath, NodeName};
use jf_steps::Steps;
use std::alloc::Global;
use std::marker::Brand;
use std::sync::ledger::{Blank, Ledger};

/// The nodes of a part that a landing wrote, in the order of their paths, and the names of those that it made stale.
#[derive(Drop)]
pub(crate) struct PartLists {
    pub(crate) fresh: NamedNodes,
    pub(crate) stale: Vec<NodeName>,
}

/// The name under which the version `head` has its top.
fn old_top_name(head: u64, old: Option<&Link>) -> NodeName
    ensures { result ≡ old_name head (option_copied old.entry) [] }
{
    match old {
        None => top_name(head),
        Some(link) => {
            link.know();
            top_name(link.version())
        }
    }
}

/// The two tops alone.
pub(crate) fn top_lists(
    alloc: Global,
    old: Option<&Link>,
    head: u64,
    top: Option<&Link>,
    version: u64,
) -> Result<PartLists, Memory>
    ensures { IfOk result (AreTopLists version head (option_copied old.entry) (option_copied top.entry)) }
{
    let mut nodes = SharedNodes::new(alloc);
    nodes.push(top_name(version), top)?;
    let fresh = NamedNodes::of(alloc, &nodes)?;
    let mut stale = Vec::new(alloc);
    stale.push(old_top_name(head, old))?;
    Ok(PartLists { fresh, stale })
}

/// The nodes that a landing wrote from the child of the top at nibble `n` down.
fn fresh_from<L: Ledger>(
    alloc: Global,
    top: Option<&Link>,
    version: u64,
    n: Nibble,
    steps: &mut Steps<L>,
) -> Result<SharedNodes, Memory>
    requires top { IsAtDepth 0 (option_copied top) }
    ensures lists { IfOk result (λ v. (es : Part) (before : Path → Option ℕ) → IsFreshUnder version es before (option_copied top.entry) → v ≡ listed_below 0 n es (content (option_copied top.entry)) (fresh_under version (option_copied top.entry))) }
    ensures cost { IfOk result (λ v. steps.new ≡ steps.old + length v) }
{
    let mut nodes = SharedNodes::new(alloc);
    match top {
        None => Ok(nodes),
        Some(link) => {
            list_fresh_at(link, version, &NibblePath::empty(), n, &mut nodes, steps)?;
            Ok(nodes)
        }
    }
}

/// The names of the nodes that a landing made stale from the child of the old top at nibble `n` down.
fn stale_from<L: Ledger>(
    alloc: Global,
    old: Option<&Link>,
    top: Option<&Link>,
    version: u64,
    n: Nibble,
    steps: &mut Steps<L>,
) -> Result<Vec<NodeName>, Memory>
    requires old { IsAtDepth 0 (option_copied old) }
    requires top { IsAtDepth 0 (option_copied top) }
    ensures lists { IfOk result (λ v. (head : ℕ) → IsStaleUnder version (option_copied old.entry) (option_copied top.entry) → v.items ≡ listed_below 0 n (content (option_copied top.entry)) (content (option_copied old.entry)) (old_name head (option_copied old.entry))) }
    ensures cost { IfOk result (λ v. steps.new ≡ steps.old + length v.items) }
{
    let mut names = Vec::new(alloc);
    match old {
        None => Ok(names),
        Some(link) => {
            list_stale_at(
                link,
                top,
                version,
                &NibblePath::empty(),
                n,
                &mut names,
                steps,
            )?;
            Ok(names)
        }
    }
}

/// What is listed from the children at nibble `n` down. The nodes are spelled as soon as they are listed. A step is a node
/// gone into.
fn part_lists_counted<L: Ledger>(
    alloc: Global,
    old: Option<&Link>,
    top: Option<&Link>,
    version: u64,
    n: Nibble,
    steps: &mut Steps<L>,
) -> Result<PartLists, Memory>
    requires old { IsAtDepth 0 (option_copied old) }
    requires top { IsAtDepth 0 (option_copied top) }
    ensures lists { IfOk result (ArePartLists version (option_copied old.entry) (option_copied top.entry) n) }
    ensures cost { IfOk result (λ l. steps.new ≡ steps.old + length l.fresh + length l.stale.items) }
{
    let nodes = fresh_from(alloc, top, version, n, steps)?;
    let fresh = NamedNodes::of(alloc, &nodes)?;
    let stale = stale_from(alloc, old, top, version, n, steps)?;
    Ok(PartLists { fresh, stale })
}

/// As `part_lists_counted`, in a ledger of its own.
fn part_lists_uncounted<L: Ledger>(
    alloc: Global,
    old: Option<&Link>,
    top: Option<&Link>,
    version: u64,
    n: Nibble,
    blank: Blank,
) -> Result<PartLists, Memory>
    requires old { IsAtDepth 0 (option_copied old) }
    requires top { IsAtDepth 0 (option_copied top) }
    requires name { blank.name ≡ L.name }
    requires parts { blank.parts ≡ L.parts }
    requires positive { 0 < blank.parts }
    ensures { IfOk result (ArePartLists version (option_copied old.entry) (option_copied top.entry) n) }
{
    let mut steps = Steps::<L>::new(blank);
    part_lists_counted(alloc, old, top, version, n, &mut steps)
}

/// As `part_lists_counted`, with its steps counted in a ledger of its own: a ledger is written by one thread.
pub(crate) fn part_lists(
    alloc: Global,
    old: Option<&Link>,
    top: Option<&Link>,
    version: u64,
    n: Nibble,
) -> Result<PartLists, Memory>
    requires old { IsAtDepth 0 (option_copied old) }
    requires top { IsAtDepth 0 (option_copied top) }
    ensures { IfOk result (ArePartLists version (option_copied old.entry) (option_copied top.entry) n) }
{
    part_lists_uncounted::<Brand>(alloc, old, top, version, n, Blank::new(1))
}
