// The update of a leaf, or of a place without a node. What it becomes is built anew, but for the leaf that was there:
// this keeps its hash wherever it goes.
ghost use Rattle.std.specs.Prelude.{◌≡◌, ◌<◌, ◌≤◌, length, IfOk};
ghost use Rattle.std.specs.Option.{option_copied};
ghost use Rattle.jf_hash.specs.Slots.{with_nibble};
ghost use Rattle.jf_model.specs.Changes.{entries_after_batch};
ghost use Rattle.jf_node.specs.Children.{content};
ghost use Rattle.jf_update.specs.Made.{IsBuilt, AreBuilt};
ghost use Rattle.jf_update.specs.Outcomes.{AreParts, IsLeafOutcome};
ghost use Rattle.jf_update.specs.ValueHashes.{AreValueHashes};

use crate::outcome::Outcome;
use crate::piece::{hashes_in, piece_end};
use crate::remainder::{Remainder, is_unchanged, remainder_of};
use jf_hash::Hash;
use jf_node::{Link, Seen, Sixteen};
use jf_path::{Key, Memory, Nibble, SharedBytes, nibble};
use std::alloc::Global;

/// The leaf, if its key has nibble `n` at a depth.
pub(crate) fn own_at(own: Option<&Link>, depth: u64, n: Nibble) -> Option<&Link>
    requires depth { depth < 64 }
    requires lone { length (content (option_copied own)) < 2 }
    ensures { content (option_copied result) ≡ with_nibble depth n (content (option_copied own.entry)) }
{
    match own {
        None => None,
        Some(link) => match link.view() {
            Seen::Leaf { key, .. } => {
                if nibble(key, depth as usize) == n {
                    Some(link)
                } else {
                    None
                }
            }
            Seen::Inner { .. } => unreachable!(),
        },
    }
}

/// The new nodes where the leaf `own` stood, or nothing, after changes of keys below the same path.
#[cycle(build)]
pub(crate) fn build(
    alloc: Global,
    own: Option<&Link>,
    entries: &[(Key, Option<SharedBytes>)],
    hashes: &[Hash],
    depth: u64,
    version: u64,
) -> Result<Option<Link>, Memory>
    requires depth { depth ≤ 64 }
    requires lone { length (content (option_copied own)) < 2 }
    requires parts { AreParts depth (content (option_copied own)) entries.now }
    requires hashed { AreValueHashes entries.now hashes.now }
    ensures { IfOk result (λ y. IsBuilt depth version (entries_after_batch (content (option_copied own.entry)) entries.now) y) }
{
    match remainder_of(own, entries, hashes, depth) {
        Remainder::Nothing => Ok(None),
        Remainder::Old(link) => {
            let link = link.at(alloc, version, depth)?;
            Ok(Some(link))
        }
        Remainder::Put(key, value, value_hash) => {
            let link = Link::leaf(alloc, version, depth, key, value, value_hash)?;
            Ok(Some(link))
        }
        Remainder::Several => {
            let children = build_children(alloc, own, entries, hashes, depth, version)?;
            let link = Link::inner(alloc, version, depth, children)?;
            Ok(Some(link))
        }
    }
}

/// The new children of a node that takes the place of the leaf `own`, or of nothing.
#[cycle(build)]
pub(crate) fn build_children(
    alloc: Global,
    own: Option<&Link>,
    entries: &[(Key, Option<SharedBytes>)],
    hashes: &[Hash],
    depth: u64,
    version: u64,
) -> Result<Sixteen, Memory>
    requires depth { depth < 64 }
    requires lone { length (content (option_copied own)) < 2 }
    requires parts { AreParts depth (content (option_copied own)) entries.now }
    requires hashed { AreValueHashes entries.now hashes.now }
    ensures { IfOk result (λ y. AreBuilt depth version (entries_after_batch (content (option_copied own.entry)) entries.now) y) }
{
    let mut children = Sixteen::none();
    let mut start = 0;
    for n in 0..16 {
        let nibble = Nibble::of(n);
        let end = start + piece_end(&entries[start..], depth, nibble);
        children.set(
            nibble,
            build(
                alloc,
                own_at(own, depth, nibble),
                &entries[start..end],
                hashes_in(hashes, start, end),
                depth + 1,
                version,
            )?,
        );
        start = end;
    }
    Ok(children)
}

/// Updates a leaf, or a place without a node.
pub(crate) fn update_leaf(
    alloc: Global,
    own: Option<&Link>,
    entries: &[(Key, Option<SharedBytes>)],
    hashes: &[Hash],
    depth: u64,
    version: u64,
) -> Result<Outcome, Memory>
    requires depth { depth ≤ 64 }
    requires lone { length (content (option_copied own)) < 2 }
    requires parts { AreParts depth (content (option_copied own)) entries.now }
    requires hashed { AreValueHashes entries.now hashes.now }
    ensures { IfOk result (λ r. IsLeafOutcome depth version (content (option_copied own.entry)) entries.now r) }
{
    if is_unchanged(own, entries, hashes, depth) {
        return Ok(Outcome::Same);
    }
    let top = build(alloc, own, entries, hashes, depth, version)?;
    Ok(Outcome::New(top))
}
