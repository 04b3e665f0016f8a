// The update of a leaf, or of a place without a node, by several workers: what is to be built below each nibble is a
// piece of work of its own.
ghost use Rattle.std.specs.Prelude.{◌≤◌, ◌<◌, length, IfOk};
ghost use Rattle.std.specs.List.{AllZip};
ghost use Rattle.std.specs.Option.{option_copied};
ghost use Rattle.std.specs.Thread.{IsSync};
ghost use Rattle.jf_model.specs.Changes.{entries_after_batch};
ghost use Rattle.jf_node.specs.Children.{content};
ghost use Rattle.jf_update.specs.Made.{IsBuilt, AreBuilt};
ghost use Rattle.jf_update.specs.Outcomes.{AreParts, IsLeafOutcome};
ghost use Rattle.jf_split.specs.Pieces.{ArePieces};
ghost use Rattle.jf_update.specs.Wide.{IsPieceOf, IsPieceBuilt};
ghost use Rattle.jf_update.specs.ValueHashes.{AreValueHashes};

use crate::leaf::{build, build_children, own_at};
use crate::outcome::Outcome;
use crate::piece::{hashes_in, pieces_in, workers_each, workers_for};
use crate::remainder::{Remainder, is_unchanged, remainder_of};
use jf_hash::Hash;
use jf_join::{Gate, Workers, join_pieces};
use jf_node::{Link, Sixteen};
use jf_path::{Key, Memory, SharedBytes};
use jf_split::Piece;
use std::alloc::Global;
use std::thread::Threads;

/// The new children of a node that takes the place of the leaf `own`, or of nothing: those that were built for the
/// pieces, and the leaf, if no piece has its nibble.
fn place_built(
    alloc: Global,
    own: Option<&Link>,
    pieces: &[Piece],
    built: Vec<Result<Option<Link>, Memory>>,
    entries: &[(Key, Option<SharedBytes>)],
    hashes: &[Hash],
    depth: u64,
    version: u64,
) -> Result<Sixteen, Memory>
    requires depth { depth < 64 }
    requires lone { length (content (option_copied own)) < 2 }
    requires parts { AreParts depth (content (option_copied own)) entries.now }
    requires hashed { AreValueHashes entries.now hashes.now }
    requires pieces { ArePieces depth entries.now pieces.now }
    requires built { AllZip (λ p r. IfOk r (IsPieceBuilt depth version (entries_after_batch (content (option_copied own)) entries.now) p)) pieces.now built.items }
    ensures { IfOk result (λ y. AreBuilt depth version (entries_after_batch (content (option_copied own.entry)) entries.now) y) }
{
    let mut built = built;
    let mut children = build_children(
        alloc,
        own,
        &entries[0..0],
        hashes_in(hashes, 0, 0),
        depth,
        version,
    )?;
    for piece in pieces {
        let child = built.remove(0)?;
        children.set(piece.nibble, child);
    }
    Ok(children)
}

/// The new nodes where the leaf `own` stood, or nothing, after changes of keys below the same path, by at most this many
/// workers.
#[cycle(wide_build)]
fn build_wide<H: Threads + Sync, G: Gate>(
    rt: &H,
    alloc: Global,
    own: Option<&Link>,
    entries: &[(Key, Option<SharedBytes>)],
    hashes: &[Hash],
    depth: u64,
    version: u64,
    workers: Workers,
    gate: &G,
) -> Result<Option<Link>, Memory>
    requires depth { depth ≤ 64 }
    requires lone { length (content (option_copied own)) < 2 }
    requires parts { AreParts depth (content (option_copied own)) entries.now }
    requires hashed { AreValueHashes entries.now hashes.now }
    ensures { IfOk result (λ y. IsBuilt depth version (entries_after_batch (content (option_copied own.entry)) entries.now) y) }
{
    if workers.is_one() {
        return build(alloc, own, entries, hashes, depth, version);
    }
    match remainder_of(own, entries, hashes, depth) {
        Remainder::Nothing => Ok(None),
        Remainder::Old(link) => {
            let link = link.at(alloc, version, depth)?;
            Ok(Some(link))
        }
        Remainder::Put(key, value, value_hash) => {
            let link = Link::leaf(alloc, version, depth, key, value, value_hash)?;
            Ok(Some(link))
        }
        Remainder::Several => {
            let children = build_pieces(
                rt, alloc, own, entries, hashes, depth, version, workers, gate,
            )?;
            let link = Link::inner(alloc, version, depth, children)?;
            Ok(Some(link))
        }
    }
}

/// The new children of a node that takes the place of the leaf `own`, or of nothing, by at most this many workers.
#[cycle(wide_build)]
fn build_pieces<H: Threads + Sync, G: Gate>(
    rt: &H,
    alloc: Global,
    own: Option<&Link>,
    entries: &[(Key, Option<SharedBytes>)],
    hashes: &[Hash],
    depth: u64,
    version: u64,
    workers: Workers,
    gate: &G,
) -> Result<Sixteen, Memory>
    requires depth { depth < 64 }
    requires lone { length (content (option_copied own)) < 2 }
    requires parts { AreParts depth (content (option_copied own)) entries.now }
    requires hashed { AreValueHashes entries.now hashes.now }
    ensures { IfOk result (λ y. AreBuilt depth version (entries_after_batch (content (option_copied own.entry)) entries.now) y) }
{
    let pieces = pieces_in(alloc, entries, depth)?;
    let each = workers_each(workers, pieces.len());
    let work = |piece: &Piece| -> Result<Option<Link>, Memory>
        requires { IsSync H.row × IsSync G.row × (depth < 64) × (length (content (option_copied own)) < 2) × AreParts depth (content (option_copied own)) entries.now × AreValueHashes entries.now hashes.now × IsPieceOf depth entries.now piece.now }
        ensures { IfOk result (IsPieceBuilt depth version (entries_after_batch (content (option_copied own.entry)) entries.entry.now) piece.now) }
    {
        build_piece(
            rt, alloc, own, piece, entries, hashes, depth, version, each, gate,
        )
    };
    let built = join_pieces(rt, alloc, &pieces, workers, gate, &work)?;
    place_built(alloc, own, &pieces, built, entries, hashes, depth, version)
}

/// The new child of a node that takes the place of the leaf `own`, or of nothing, after the changes of one piece.
#[cycle(wide_build)]
fn build_piece<H: Threads + Sync, G: Gate>(
    rt: &H,
    alloc: Global,
    own: Option<&Link>,
    piece: &Piece,
    entries: &[(Key, Option<SharedBytes>)],
    hashes: &[Hash],
    depth: u64,
    version: u64,
    workers: Workers,
    gate: &G,
) -> Result<Option<Link>, Memory>
    requires depth { depth < 64 }
    requires lone { length (content (option_copied own)) < 2 }
    requires parts { AreParts depth (content (option_copied own)) entries.now }
    requires hashed { AreValueHashes entries.now hashes.now }
    requires piece { IsPieceOf depth entries.now piece.now }
    ensures { IfOk result (IsPieceBuilt depth version (entries_after_batch (content (option_copied own.entry)) entries.now) piece.now) }
{
    let part = &entries[piece.start..piece.end];
    let part_hashes = hashes_in(hashes, piece.start, piece.end);
    let share = workers_for(workers, part.len());
    build_wide(
        rt,
        alloc,
        own_at(own, depth, piece.nibble),
        part,
        part_hashes,
        depth + 1,
        version,
        share,
        gate,
    )
}

/// Updates a leaf, or a place without a node, by at most this many workers.
pub(crate) fn update_leaf_wide<H: Threads + Sync, G: Gate>(
    rt: &H,
    alloc: Global,
    own: Option<&Link>,
    entries: &[(Key, Option<SharedBytes>)],
    hashes: &[Hash],
    depth: u64,
    version: u64,
    workers: Workers,
    gate: &G,
) -> Result<Outcome, Memory>
    requires depth { depth ≤ 64 }
    requires lone { length (content (option_copied own)) < 2 }
    requires parts { AreParts depth (content (option_copied own)) entries.now }
    requires hashed { AreValueHashes entries.now hashes.now }
    ensures { IfOk result (λ r. IsLeafOutcome depth version (content (option_copied own.entry)) entries.now r) }
{
    if is_unchanged(own, entries, hashes, depth) {
        return Ok(Outcome::Same);
    }
    let top = build_wide(
        rt, alloc, own, entries, hashes, depth, version, workers, gate,
    )?;
    Ok(Outcome::New(top))
}
