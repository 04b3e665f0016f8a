// A piece of a list: the entries whose keys have one nibble, which stand one after another. Several workers take a piece
// each.
ghost use Rattle.std.specs.Prelude.{◌≡◌, ◌-◌, ◌*◌, ◌/◌, ◌<◌, ◌≤◌, ◌⊎◌, ℕ, length, take, drop, IfOk};
ghost use Rattle.jf_model.specs.Parts.{IsPartUnder, IsPieceEnd};
ghost use Rattle.std.specs.List.{AllByRecursion};
ghost use Rattle.jf_split.specs.Pieces.{ArePieces};
ghost use Rattle.jf_update.specs.Wide.{IsPieceOf, most_changes};

use jf_hash::Hash;
use jf_join::Workers;
use jf_path::{Key, Memory, Nibble, SharedBytes, nibble};
use jf_split::{Piece, pieces_of};
use std::alloc::Global;

/// A piece of more changes than this is cut again, if there are workers for its pieces.
const MOST_CHANGES: usize = 1_024;

/// The number of entries at the front of `items` whose keys have nibble `n` at a depth.
pub(crate) fn piece_end<V>(items: &[(Key, V)], depth: u64, n: Nibble) -> usize
    requires { depth < 64 }
    ensures { IsPieceEnd depth n result items.now }
{
    for (i, item) in items.iter().enumerate() {
        if nibble(&item.0, depth as usize) != n {
            return i;
        }
    }
    items.len()
}

/// The hashes from place `start` up to place `end`.
pub(crate) fn hashes_in(hashes: &[Hash], start: usize, end: usize) -> &[Hash]
    requires order { start ≤ end }
    requires within { end ≤ length hashes.now }
    ensures { result.now ≡ take (end - start) (drop start hashes.now) }
{
    &hashes[start..end]
}

/// The pieces of changes at a depth, in the order of their nibbles.
pub(crate) fn pieces_in(
    alloc: Global,
    entries: &[(Key, Option<SharedBytes>)],
    depth: u64,
) -> Result<Vec<Piece>, Memory>
    requires depth { depth < 64 }
    requires part { (path : ℕ → ℕ) × IsPartUnder depth path entries.now }
    ensures cut { IfOk result (λ ps. ArePieces depth entries.now ps.items) }
    ensures pieces { IfOk result (λ ps. AllByRecursion (IsPieceOf depth entries.now) ps.items) }
{
    pieces_of(alloc, entries, depth as usize)
}

/// The number of workers that each of so many pieces may have, if all together have `workers`: an equal share, rounded
/// down, but at least one.
pub(crate) fn workers_each(workers: Workers, pieces: usize) -> Workers
    ensures zero { pieces ≡ 0 → result ≡ 1 }
    ensures enough { workers ≤ pieces → result ≡ 1 }
    ensures divided { 1 ≤ pieces → pieces < workers → result ≡ workers / pieces }
    ensures shared { (result ≡ 1) ⊎ (result * pieces ≤ workers) }
{
    let pieces = pieces as u64;
    let number = workers.get();
    if pieces == 0 || pieces >= number {
        return Workers::ONE;
    }
    match Workers::new(number / pieces) {
        Some(share) => share,
        None => Workers::ONE,
    }
}

/// The number of workers of a piece of so many changes, which may have `workers`.
pub(crate) fn workers_for(workers: Workers, changes: usize) -> Workers
    ensures small { changes ≤ most_changes → result ≡ 1 }
    ensures large { most_changes < changes → result ≡ workers }
{
    if changes > MOST_CHANGES {
        workers
    } else {
        Workers::ONE
    }
}
