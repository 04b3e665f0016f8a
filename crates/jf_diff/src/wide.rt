// What a landing wrote and made stale, listed by several workers: what is listed from the children at one nibble down is
// a piece of work of its own.
ghost use Rattle.std.specs.Prelude.{◌≡◌, ℕ, Option, IfOk, T};
ghost use Rattle.std.specs.Option.{option_copied};
ghost use Rattle.std.specs.FinMap.{is_sorted};
ghost use Rattle.std.specs.List.Sorted.{IsPermutation};
ghost use Rattle.jf_path.specs.Keys.{key_cmp};
ghost use Rattle.jf_hash.specs.Slots.{Part, all_nibbles};
ghost use Rattle.jf_model.specs.Nodes.{Path};
ghost use Rattle.jf_model.specs.Walk.{with_root};
ghost use Rattle.jf_node.specs.Children.{content};
ghost use Rattle.jf_diff.specs.OptionalNodes.{IsAtDepth, IsOfVersion};
ghost use Rattle.jf_diff.specs.PartLists.{ArePartLists, AreAllParts};
ghost use Rattle.jf_diff.specs.Plains.{fresh_under};
ghost use Rattle.jf_diff.specs.Tops.{IsFreshUnder, IsStaleUnder, old_name};

use crate::lists::Written;
use crate::parts::{PartLists, part_lists, top_lists};
use crate::sorted::sorted_names;
use jf_join::{Gate, Workers, join_pieces_from};
use jf_node::Link;
use jf_path::{Memory, Nibble, NodeName};
use std::alloc::Global;
use std::thread::Threads;

/// All nibbles, in their order.
fn nibbles(alloc: Global) -> Result<Vec<Nibble>, Memory>
    ensures { IfOk result (λ v. v.items ≡ all_nibbles) }
{
    let mut all = Vec::new(alloc);
    for n in 0..16 {
        all.push(Nibble::of(n))?;
    }
    Ok(all)
}

/// Takes room for the stale names of all parts at once, so that what is appended isn't copied again. The names are unchanged.
fn take_room(stale: &mut Vec<NodeName>, parts: &[Result<PartLists, Memory>]) -> Result<(), Memory>
    ensures { stale.new.items ≡ stale.old.items }
{
    let mut more: usize = 0;
    for part in parts {
        if let Ok(part) = part {
            more = more.saturating_add(part.stale.len());
        }
    }
    stale.reserve_exact(more)?;
    Ok(())
}

/// The lists of the two tops and then of all parts, one after another.
fn put_together(
    alloc: Global,
    old: Option<&Link>,
    head: u64,
    top: Option<&Link>,
    version: u64,
    parts: Vec<Result<PartLists, Memory>>,
) -> Result<PartLists, Memory>
    requires parts { AreAllParts version (option_copied old) (option_copied top) parts.items }
    ensures fresh { IfOk result (λ l. (es : Part) (before : Path → Option ℕ) → IsFreshUnder version es before (option_copied top.entry) → l.fresh ≡ with_root es (content (option_copied top.entry)) (fresh_under version (option_copied top.entry))) }
    ensures stale { IfOk result (λ l. IsStaleUnder version (option_copied old.entry) (option_copied top.entry) → l.stale.items ≡ with_root (content (option_copied top.entry)) (content (option_copied old.entry)) (old_name head (option_copied old.entry))) }
{
    let mut all = top_lists(alloc, old, head, top, version)?;
    take_room(&mut all.stale, &parts)?;
    for part in parts {
        let PartLists { fresh, mut stale } = part?;
        all.fresh.append(fresh)?;
        all.stale.append(&mut stale)?;
    }
    Ok(all)
}

/// The number of the first piece of the lists, for a gate. The pieces of an update have the numbers below it.
const FIRST_PIECE: u64 = 16;

/// The lists by at most this many workers. The gate is notified of the piece of nibble n as piece 16 + n.
pub(crate) fn written_wide<H: Threads + Sync, G: Gate>(
    rt: &H,
    alloc: Global,
    old: Option<&Link>,
    head: u64,
    top: Option<&Link>,
    version: u64,
    workers: Workers,
    gate: &G,
) -> Result<Written, Memory>
    requires old { IsAtDepth 0 (option_copied old) }
    requires top { IsAtDepth 0 (option_copied top) }
    requires landed { IsStaleUnder version (option_copied old) (option_copied top) }
    requires old_sorted { T (is_sorted key_cmp (content (option_copied old))) }
    requires sorted { T (is_sorted key_cmp (content (option_copied top))) }
    ensures fresh { IfOk result (λ w. (es : Part) (before : Path → Option ℕ) → IsFreshUnder version es before (option_copied top.entry) → w.fresh ≡ with_root es (content (option_copied top.entry)) (fresh_under version (option_copied top.entry))) }
    ensures stale { IfOk result (λ w. IsPermutation (with_root (content (option_copied top.entry)) (content (option_copied old.entry)) (old_name head (option_copied old.entry))) w.stale) }
{
    let nibbles = nibbles(alloc)?;
    let work = |n: &Nibble| -> Result<PartLists, Memory>
        requires { IsAtDepth 0 (option_copied old) × IsAtDepth 0 (option_copied top) }
        ensures { IfOk result (ArePartLists version (option_copied old.entry) (option_copied top.entry) n.now) }
    { part_lists(alloc, old, top, version, *n) };
    let parts = join_pieces_from(rt, alloc, &nibbles, FIRST_PIECE, workers, gate, &work)?;
    let PartLists { fresh, stale } = put_together(alloc, old, head, top, version, parts)?;
    Ok(Written {
        fresh,
        stale: sorted_names(stale),
    })
}
