// A node is updated by its children, and put over them again if one of them changed.
ghost use Rattle.std.specs.Prelude.{◌≡◌, ◌<◌, ◌≤◌, ◌++◌, ℕ, [], length, IfOk, IfNone, IfSome};
ghost use Rattle.std.specs.Option.{option_copied};
ghost use Rattle.jf_hash.specs.Ranges.{has_change};
ghost use Rattle.jf_hash.specs.Slots.{Part};
ghost use Rattle.jf_node.specs.Children.{content, entries_of_children, FitFrom, SameElsewhere};
ghost use Rattle.jf_model.specs.Parts.{IsPartUnder};
ghost use Rattle.jf_diff.specs.OptionalNodes.{IsAtDepth};
ghost use Rattle.jf_update.specs.Made.{IsTopOver};
ghost use Rattle.jf_update.specs.Outcomes.{AreParts, IsOutcome, AreOutcome, IsOutcomePlaced};
ghost use Rattle.jf_update.specs.ValueHashes.{AreValueHashes};

use crate::leaf::update_leaf;
use crate::outcome::{NewChildren, Outcome};
use crate::piece::{hashes_in, piece_end};
use jf_hash::Hash;
use jf_node::{Branches, Link, Seen, Sixteen};
use jf_path::{Bitmap, Key, Memory, Nibble, SharedBytes};
use std::alloc::Global;

/// The child with the least nibble, if there is one.
fn first_child(children: &Sixteen) -> Option<&Link>
    ensures none { IfNone result (entries_of_children children.now ≡ []) }
    ensures found { IfSome result (λ x. (rest : Part) × (entries_of_children children.now ≡ x.now.entries ++ rest)) }
{
    children.know();
    for n in 0..16 {
        if let Some(child) = children.get(Nibble::of(n)) {
            return Some(child);
        }
    }
    None
}

/// The node that takes the place of `old`, over its new children: no node, a leaf moved up, or an inner node.
pub(crate) fn rebuild(
    alloc: Global,
    old: &Link,
    made: NewChildren,
    version: u64,
) -> Result<Option<Link>, Memory>
    requires inner { 2 ≤ length old.now.entries }
    requires children { FitFrom old.now.depth 0 made.children }
    requires part { (path : ℕ → ℕ) × IsPartUnder old.now.depth path (entries_of_children made.children) }
    requires kept { SameElsewhere made.changed old.now.depth old.now.entries (entries_of_children made.children) }
    ensures { IfOk result (λ y. IsTopOver old.now.depth version made.children y) }
{
    let NewChildren { children, changed } = made;
    if children.has_several() {
        let link = old.with_children(alloc, version, children, changed)?;
        return Ok(Some(link));
    }
    match first_child(&children) {
        None => Ok(None),
        Some(child) => {
            // One entry, and a depth of at most 64.
            child.know();
            old.know();
            let link = child.at(alloc, version, old.depth())?;
            Ok(Some(link))
        }
    }
}

/// Updates the node `old`, or a place without a node, at a depth.
#[cycle(node)]
pub(crate) fn update_node(
    alloc: Global,
    old: Option<&Link>,
    entries: &[(Key, Option<SharedBytes>)],
    hashes: &[Hash],
    depth: u64,
    version: u64,
) -> Result<Outcome, Memory>
    requires depth { depth ≤ 64 }
    requires placed { IsAtDepth depth (option_copied old) }
    requires parts { AreParts depth (content (option_copied old)) entries.now }
    requires hashed { AreValueHashes entries.now hashes.now }
    ensures { IfOk result (λ r. IsOutcome depth version (option_copied old.entry) entries.now r) }
{
    if entries.is_empty() {
        return Ok(Outcome::Same);
    }
    match old {
        None => update_leaf(alloc, None, entries, hashes, depth, version),
        Some(link) => match link.view() {
            Seen::Leaf { .. } => update_leaf(alloc, Some(link), entries, hashes, depth, version),
            Seen::Inner { children } => {
                match update_children(alloc, children, entries, hashes, depth, version)? {
                    None => Ok(Outcome::Same),
                    Some(made) => {
                        let top = rebuild(alloc, link, made, version)?;
                        Ok(Outcome::New(top))
                    }
                }
            }
        },
    }
}

/// Puts the outcome for a child in its place, and notes whether it is new.
pub(crate) fn place(made: &mut NewChildren, n: Nibble, outcome: Outcome)
    ensures { IsOutcomePlaced made.old n outcome made.new }
{
    if let Outcome::New(child) = outcome {
        made.children.set(n, child);
        made.changed.set(n.get() as usize, true);
    }
}

/// Whether a child is new.
pub(crate) fn has_changed(changed: Bitmap) -> bool
    ensures { result ≡ has_change changed }
{
    changed.know();
    changed.count(0, 16) > 0
}

/// Updates the children of a node. Returns `None` if none of them changes.
#[cycle(node)]
pub(crate) fn update_children(
    alloc: Global,
    children: &Branches,
    entries: &[(Key, Option<SharedBytes>)],
    hashes: &[Hash],
    depth: u64,
    version: u64,
) -> Result<Option<NewChildren>, Memory>
    requires depth { depth < 64 }
    requires children { FitFrom depth 0 children.now }
    requires parts { AreParts depth (entries_of_children children.now) entries.now }
    requires hashed { AreValueHashes entries.now hashes.now }
    ensures { IfOk result (λ r. AreOutcome depth version children.now entries.now r) }
{
    children.know();
    let mut made = NewChildren {
        children: children.share()?,
        changed: Bitmap::none(),
    };
    let mut start = 0;
    for n in 0..16 {
        let nibble = Nibble::of(n);
        let end = start + piece_end(&entries[start..], depth, nibble);
        let outcome = update_node(
            alloc,
            children.get(nibble),
            &entries[start..end],
            hashes_in(hashes, start, end),
            depth + 1,
            version,
        )?;
        place(&mut made, nibble, outcome);
        start = end;
    }
    if has_changed(made.changed) {
        Ok(Some(made))
    } else {
        Ok(None)
    }
}
