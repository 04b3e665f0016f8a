// An update by several workers: the changes below each nibble are a piece of work of their own.
ghost use Rattle.std.specs.Prelude.{◌≤◌, ◌<◌, IfOk};
ghost use Rattle.std.specs.List.{AllZip};
ghost use Rattle.std.specs.Option.{option_copied};
ghost use Rattle.std.specs.Thread.{IsSync};
ghost use Rattle.jf_node.specs.Children.{content, entries_of_children, FitFrom};
ghost use Rattle.jf_diff.specs.OptionalNodes.{IsAtDepth};
ghost use Rattle.jf_update.specs.Outcomes.{AreParts, IsOutcome, AreOutcome};
ghost use Rattle.jf_split.specs.Pieces.{ArePieces};
ghost use Rattle.jf_update.specs.Wide.{IsPieceOf, IsPieceOutcome};
ghost use Rattle.jf_update.specs.ValueHashes.{AreValueHashes};

use crate::node::{has_changed, place, rebuild, update_node};
use crate::outcome::{NewChildren, Outcome};
use crate::piece::{hashes_in, pieces_in, workers_each, workers_for};
use crate::wide_leaf::update_leaf_wide;
use jf_hash::Hash;
use jf_join::{Gate, Workers, join_pieces};
use jf_node::{Branches, Link, Seen};
use jf_path::{Bitmap, Key, Memory, SharedBytes};
use jf_split::Piece;
use std::alloc::Global;
use std::thread::Threads;

/// Puts the outcomes of the pieces in their places. Returns `None` if none of the children changes.
fn place_all(
    children: &Branches,
    pieces: &[Piece],
    outcomes: Vec<Result<Outcome, Memory>>,
    entries: &[(Key, Option<SharedBytes>)],
    depth: u64,
    version: u64,
) -> Result<Option<NewChildren>, Memory>
    requires depth { depth < 64 }
    requires children { FitFrom depth 0 children.now }
    requires parts { AreParts depth (entries_of_children children.now) entries.now }
    requires pieces { ArePieces depth entries.now pieces.now }
    requires outcomes { AllZip (λ p r. IfOk r (IsPieceOutcome depth version children.now entries.now p)) pieces.now outcomes.items }
    ensures { IfOk result (λ r. AreOutcome depth version children.now entries.now r) }
{
    let _ = entries;
    let _ = depth;
    let _ = version;
    children.know();
    let mut outcomes = outcomes;
    let mut made = NewChildren {
        children: children.share()?,
        changed: Bitmap::none(),
    };
    for piece in pieces {
        let outcome = outcomes.remove(0)?;
        place(&mut made, piece.nibble, outcome);
    }
    if has_changed(made.changed) {
        Ok(Some(made))
    } else {
        Ok(None)
    }
}

/// Updates the node `old`, or a place without a node, by at most this many workers.
#[cycle(wide)]
pub(crate) fn update_wide<H: Threads + Sync, G: Gate>(
    rt: &H,
    alloc: Global,
    old: Option<&Link>,
    entries: &[(Key, Option<SharedBytes>)],
    hashes: &[Hash],
    depth: u64,
    version: u64,
    workers: Workers,
    gate: &G,
) -> Result<Outcome, Memory>
    requires depth { depth ≤ 64 }
    requires placed { IsAtDepth depth (option_copied old) }
    requires parts { AreParts depth (content (option_copied old)) entries.now }
    requires hashed { AreValueHashes entries.now hashes.now }
    ensures { IfOk result (λ r. IsOutcome depth version (option_copied old.entry) entries.now r) }
{
    if workers.is_one() {
        return update_node(alloc, old, entries, hashes, depth, version);
    }
    match old {
        None => update_leaf_wide(
            rt, alloc, None, entries, hashes, depth, version, workers, gate,
        ),
        Some(link) => match link.view() {
            Seen::Leaf { .. } => update_leaf_wide(
                rt,
                alloc,
                Some(link),
                entries,
                hashes,
                depth,
                version,
                workers,
                gate,
            ),
            Seen::Inner { children } => {
                match update_pieces(
                    rt, alloc, children, entries, hashes, depth, version, workers, gate,
                )? {
                    None => Ok(Outcome::Same),
                    Some(made) => {
                        let top = rebuild(alloc, link, made, version)?;
                        Ok(Outcome::New(top))
                    }
                }
            }
        },
    }
}

/// Updates the children of a node by at most this many workers. Returns `None` if none of them changes.
#[cycle(wide)]
fn update_pieces<H: Threads + Sync, G: Gate>(
    rt: &H,
    alloc: Global,
    children: &Branches,
    entries: &[(Key, Option<SharedBytes>)],
    hashes: &[Hash],
    depth: u64,
    version: u64,
    workers: Workers,
    gate: &G,
) -> Result<Option<NewChildren>, Memory>
    requires depth { depth < 64 }
    requires children { FitFrom depth 0 children.now }
    requires parts { AreParts depth (entries_of_children children.now) entries.now }
    requires hashed { AreValueHashes entries.now hashes.now }
    ensures { IfOk result (λ r. AreOutcome depth version children.now entries.now r) }
{
    let pieces = pieces_in(alloc, entries, depth)?;
    let each = workers_each(workers, pieces.len());
    let work = |piece: &Piece| -> Result<Outcome, Memory>
        requires { IsSync H.row × IsSync G.row × (depth < 64) × FitFrom depth 0 children.now × AreParts depth (entries_of_children children.now) entries.now × AreValueHashes entries.now hashes.now × IsPieceOf depth entries.now piece.now }
        ensures { IfOk result (IsPieceOutcome depth version children.entry.now entries.entry.now piece.now) }
    {
        update_piece(
            rt, alloc, children, piece, entries, hashes, depth, version, each, gate,
        )
    };
    let outcomes = join_pieces(rt, alloc, &pieces, workers, gate, &work)?;
    place_all(children, &pieces, outcomes, entries, depth, version)
}

/// Updates the child of a node by the changes of one piece.
#[cycle(wide)]
fn update_piece<H: Threads + Sync, G: Gate>(
    rt: &H,
    alloc: Global,
    children: &Branches,
    piece: &Piece,
    entries: &[(Key, Option<SharedBytes>)],
    hashes: &[Hash],
    depth: u64,
    version: u64,
    workers: Workers,
    gate: &G,
) -> Result<Outcome, Memory>
    requires depth { depth < 64 }
    requires children { FitFrom depth 0 children.now }
    requires parts { AreParts depth (entries_of_children children.now) entries.now }
    requires hashed { AreValueHashes entries.now hashes.now }
    requires piece { IsPieceOf depth entries.now piece.now }
    ensures { IfOk result (IsPieceOutcome depth version children.now entries.now piece.now) }
{
    children.know();
    let child = children.get(piece.nibble);
    let part = &entries[piece.start..piece.end];
    let part_hashes = hashes_in(hashes, piece.start, piece.end);
    let share = workers_for(workers, part.len());
    update_wide(
        rt,
        alloc,
        child,
        part,
        part_hashes,
        depth + 1,
        version,
        share,
        gate,
    )
}
