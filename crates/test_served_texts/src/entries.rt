// Entries, and the lines that they are written as.
use jf_io::MemSink;
use jf_model::{BatchNote, Entry, Landing, Parent};
use jf_path::Bytes;
use jf_serve::write_served;
use jf_split::Batch;
use std::alloc::Global;
use std::test::Fail;

const PIECES: &[usize] = &[1, 7];

// The note of an empty batch.
fn no_changes(alloc: Global) -> BatchNote {
    BatchNote::of(&Batch::new(alloc))
}

// Fails unless an entry alone is written as this text, into sinks that take small pieces.
fn is_written(alloc: Global, entry: Entry, wanted: &str) -> Result<(), Fail> {
    for piece in PIECES {
        if !is_written_by(alloc, &entry, *piece, wanted)? {
            return Err(Fail::new(wanted));
        }
    }
    Ok(())
}

fn is_written_by(alloc: Global, entry: &Entry, piece: usize, wanted: &str) -> Result<bool, Fail> {
    let mut sink = MemSink::new(alloc, piece.max(1), 1_000, Vec::new(alloc))?;
    let outputs: &[Bytes] = &[];
    write_served::<MemSink>(alloc, outputs, std::slice::from_ref(entry), &mut sink)?;
    Ok(sink.text() == wanted.as_bytes())
}

#[test]
fn writes_forks(rt: HostRuntime) -> Result<(), Fail> {
    let alloc = rt.alloc();
    is_written(
        alloc,
        Entry::Made {
            owner: 0,
            fork: 0,
            parent: Parent::Head,
            batch: no_changes(alloc),
            root: [0xab; 32],
        },
        "ledger 1\nmade 0 f0 head abababababababababababababababababababababababababababababababab\n",
    )?;
    is_written(
        alloc,
        Entry::Made {
            owner: 1,
            fork: 12,
            parent: Parent::Fork(3),
            batch: no_changes(alloc),
            root: [0x0f; 32],
        },
        "ledger 1\nmade 1 f12 f3 0f0f0f0f0f0f0f0f0f0f0f0f0f0f0f0f0f0f0f0f0f0f0f0f0f0f0f0f0f0f0f0f\n",
    )
}

#[test]
fn writes_landings(rt: HostRuntime) -> Result<(), Fail> {
    let alloc = rt.alloc();
    is_written(
        alloc,
        Entry::Landed {
            owner: 15,
            version: 7,
            how: Landing::Direct(no_changes(alloc)),
            root: [0xab; 32],
            moment: 9,
        },
        "ledger 1\nlanded 15 7 abababababababababababababababababababababababababababababababab head\n",
    )?;
    is_written(
        alloc,
        Entry::Landed {
            owner: 1,
            version: 2,
            how: Landing::Fork(3),
            root: [0x0f; 32],
            moment: 4,
        },
        "ledger 1\nlanded 1 2 0f0f0f0f0f0f0f0f0f0f0f0f0f0f0f0f0f0f0f0f0f0f0f0f0f0f0f0f0f0f0f0f f3\n",
    )
}

#[test]
fn writes_other_changes(rt: HostRuntime) -> Result<(), Fail> {
    let alloc = rt.alloc();
    is_written(
        alloc,
        Entry::Dropped { owner: 1, fork: 2 },
        "ledger 1\ndropped 1 f2\n",
    )?;
    is_written(
        alloc,
        Entry::Retired {
            owner: 0,
            bound: 5,
            floor: 3,
        },
        "ledger 1\nretired 0 5 3\n",
    )?;
    is_written(
        alloc,
        Entry::Compacted {
            owner: 1,
            generation: 18446744073709551615,
        },
        "ledger 1\ncompacted 1 18446744073709551615\n",
    )
}
