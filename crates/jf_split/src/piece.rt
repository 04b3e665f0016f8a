// A piece of a batch is the entries whose keys have one nibble at a depth.
ghost use Rattle.std.specs.Prelude.{◌≡◌, ◌<◌, ◌≤◌, length, IfOk};
ghost use Rattle.std.specs.List.{AllWithin, HoldsAt};
ghost use Rattle.std.specs.List.Sorted.{IsNonDecreasingBy};
ghost use Rattle.jf_path.specs.Nibbles.{nibble};
ghost use Rattle.jf_split.specs.Pieces.{ArePieces};

use jf_path::{Key, Memory, Nibble, SharedBytes, nibble};
use std::alloc::Global;

/// The entries of a batch, from place `start` up to place `end`, whose keys have this nibble at some depth.
#[derive(Clone, Copy, Debug, PartialEq, Eq)]
pub struct Piece {
    pub nibble: Nibble,
    pub start: usize,
    pub end: usize,
}

/// The pieces of entries whose nibbles at a depth, 0 to 63, don't fall: one for each nibble that a key has there.
pub fn pieces_of(
    alloc: Global,
    entries: &[(Key, Option<SharedBytes>)],
    depth: usize,
) -> Result<Vec<Piece>, Memory>
    // The depth is 0 to 63.
    requires depth { depth < 64 }
    // From each entry to the next, the nibble of the key at the depth doesn't fall.
    requires sorted { IsNonDecreasingBy (λ e. nibble e.0 depth) entries.now }
    // After Ok, the pieces tile the entries, with nibbles that rise strictly; each is exactly the entries of its nibble.
    ensures { IfOk result (λ ps. ArePieces depth entries.now ps.items) }
{
    let mut pieces = Vec::new(alloc);
    let mut start = 0;
    while start < entries.len() {
        let nibble = nibble_at(&entries[start], depth);
        let end = end_of_piece(entries, depth, start, nibble);
        pieces.push(Piece { nibble, start, end })?;
        start = end;
    }
    Ok(pieces)
}

// The end of the piece that begins at place `start`, whose keys have the nibble `here`.
fn end_of_piece(
    entries: &[(Key, Option<SharedBytes>)],
    depth: usize,
    start: usize,
    here: Nibble,
) -> usize
    requires depth { depth < 64 }
    requires sorted { IsNonDecreasingBy (λ e. nibble e.0 depth) entries.now }
    requires within { start < length entries.now }
    requires here { HoldsAt (λ e. nibble e.0 depth ≡ here) entries.now start }
    ensures behind { start < result }
    ensures within { result ≤ length entries.now }
    ensures nibble { AllWithin (λ e. nibble e.0 depth ≡ here) entries.now start result }
    ensures other { AllWithin (λ e. here < nibble e.0 depth) entries.now result (length entries.now) }
{
    start + entries[start..].partition_point(|entry| nibble_at(entry, depth).get() <= here.get())
}

// The nibble of an entry's key.
fn nibble_at(entry: &(Key, Option<SharedBytes>), depth: usize) -> Nibble
    requires { depth < 64 }
    ensures { result ≡ nibble entry.now.0 depth }
{
    nibble(&entry.0, depth)
}
