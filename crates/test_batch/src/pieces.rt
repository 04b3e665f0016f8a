// The pieces into which batches fall.
ghost use Rattle.std.specs.Prelude.{◌≡◌, ℕ, ◌<◌, ◌≤◌, IsTrue};
ghost use Rattle.jf_path.specs.Nibbles.{nibble};
ghost use Rattle.jf_split.specs.Pieces.{AgreeBefore};

use crate::words::key;
use jf_path::{Key, nibble};
use jf_split::{Batch, BatchFault, Piece};
use std::alloc::Global;
use std::test::Fail;

// Whether two keys have the same first `depth` nibbles.
fn begin_alike(a: &Key, b: &Key, depth: usize) -> bool
    requires { depth ≤ 64 }
    ensures { IsTrue result → (i : ℕ) → i < depth → nibble a.now i ≡ nibble b.now i }
{
    for i in 0..depth {
        if nibble(a, i) != nibble(b, i) {
            return false;
        }
    }
    true
}

// Whether all keys have the same first `depth` nibbles.
fn agree(batch: &Batch, depth: usize) -> bool
    requires { depth ≤ 64 }
    ensures { IsTrue result → AgreeBefore depth batch.now }
{
    let entries = batch.as_slice();
    for entry in entries {
        if !begin_alike(&entries[0].0, &entry.0, depth) {
            return false;
        }
    }
    true
}

// Keys that agree before a depth, that depth, and the pieces: a nibble, where its keys begin and where they end.
const PIECES: &[(&[u32], usize, &[(u8, usize, usize)])] = &[
    (&[], 0, &[]),
    (
        &[
            0x0100_0000,
            0x0f00_0000,
            0x1000_0000,
            0xa000_0000,
            0xff00_0000,
        ],
        0,
        &[(0, 0, 2), (1, 2, 3), (10, 3, 4), (15, 4, 5)],
    ),
    (
        &[0x3000_0000, 0x3100_0000, 0x3100_0001, 0x3f00_0000],
        1,
        &[(0, 0, 1), (1, 1, 3), (15, 3, 4)],
    ),
    (&[0x70, 0x75, 0x7f], 63, &[(0, 0, 1), (5, 1, 2), (15, 2, 3)]),
    (&[7], 62, &[(0, 0, 1)]),
];

fn batch_of(alloc: Global, keys: &[u32]) -> Result<Batch, BatchFault> {
    let mut batch = Batch::new(alloc);
    for n in keys {
        batch.put(alloc, &key(*n), b"x")?;
    }
    Ok(batch)
}

// The pieces of a batch at a depth; before it its keys have to agree.
fn pieces_of(alloc: Global, keys: &[u32], depth: usize) -> Result<Vec<Piece>, Fail> {
    let batch = batch_of(alloc, keys)?;
    if depth < 64 && agree(&batch, depth) {
        Ok(batch.pieces_at(alloc, depth)?)
    } else {
        Err(Fail::new("no depth of the keys"))
    }
}

fn are_pieces(pieces: &[Piece], expected: &[(u8, usize, usize)]) -> bool {
    for (piece, expected) in pieces.iter().zip(expected) {
        if (piece.nibble.get(), piece.start, piece.end) != *expected {
            return false;
        }
    }
    pieces.len() == expected.len()
}

#[test]
fn a_batch_falls_into_pieces(rt: HostRuntime) -> Result<(), Fail> {
    for (keys, depth, expected) in PIECES {
        assert!(rt;
            are_pieces(&pieces_of(rt.alloc(), keys, *depth)?, expected),
            "at depth {depth}"
        );
    }
    Ok(())
}
