// Runs with several workers: pieces of one landing are in flight at once, and no number of workers changes what is
// written.
use jf_disk::MemDisk;
use jf_join::{FreeGate, Gate};
use jf_play::play::{Played, are_same, new_disk, play_gated, roomy_disk, words_of};
use std::alloc::Global;
use std::sync::Wait;
use std::sync::atomic::AtomicU64;
use std::sync::atomic::Ordering::SeqCst;
use std::test::Fail;
use std::thread::Threads;

// A batch of a script: the first word of its lines, the numbers of their names, from the first up to the second, and
// how each line ends.
type Lines = (&'static str, u64, u64, &'static str);

// Appends the lines of a batch, and a `commit`.
fn add_batch(alloc: Global, script: &mut Vec<u8>, lines: &Lines) -> Result<(), Fail> {
    for number in lines.1..lines.2 {
        let line = format!(in alloc; "{} {number:08}{}\n", lines.0, lines.3)?;
        script.extend_from_slice(line.as_bytes())?;
    }
    script.extend_from_slice(b"commit\n")?;
    Ok(())
}

// The script of these batches.
fn script_of(alloc: Global, batches: &[Lines]) -> Result<Vec<u8>, Fail> {
    let mut script = Vec::new(alloc);
    for lines in batches {
        add_batch(alloc, &mut script, lines)?;
    }
    Ok(script)
}

// How often a piece looks for the other before it goes on alone.
const TURNS: u64 = 100_000_000;

// Holds each of the first two pieces of a landing back until the other has started too, and counts how often one of them saw
// that. So a landing counts two exactly if both were in flight at once.
#[derive(Drop)]
struct Meeting {
    first: AtomicU64,
    second: AtomicU64,
    met: AtomicU64,
}

impl Meeting {
    fn new() -> Meeting {
        Meeting {
            first: AtomicU64::new(0),
            second: AtomicU64::new(0),
            met: AtomicU64::new(0),
        }
    }

    // Waits until the other piece has come as often as this one.
    fn meet(&self, own: &AtomicU64, other: &AtomicU64) {
        let before = own.fetch_add(1, SeqCst);
        for _ in 0..TURNS {
            if other.load(SeqCst) > before {
                self.met.fetch_add(1, SeqCst);
                return;
            }
        }
    }
}

impl Gate for Meeting {
    fn begin(&self, piece: u64) {
        if piece == 0 {
            self.meet(&self.first, &self.second);
        } else if piece == 1 {
            self.meet(&self.second, &self.first);
        }
    }

    fn session(&self, _number: u64) {}
}

// Two landings, on an empty store and over nodes, of two names whose keys differ in the first nibble.
const TWO: &[u8] = b"put 61 =01\nput 62 =02\ncommit\nput 61 =03\nput 62 =04\ncommit\n";

// Words that ask for two landings of two pieces each, with two workers: of the lines above, and of a script of its own, in
// which the keys of the two names of a batch differ in the first nibble too (6 and 14, then 10 and 14).
const MODES: &[&str] = &[
    "run --workers 2",
    "serve --workers 2",
    "generate 1 2 2 --workers 2",
];

// How often a piece of these landings met the other, if a line of words asks for two workers, and how many entries they
// made.
fn meetings<H: Threads + Wait + Sync>(
    rt: &H,
    alloc: Global,
    line: &str,
) -> Result<(u64, u64), Fail> {
    let gate = Meeting::new();
    let words = words_of(alloc, line)?;
    let disk = new_disk(alloc, b"", &[])?;
    let played = play_gated(rt, alloc, disk, &words, TWO, &gate)?;
    Ok((gate.met.load(SeqCst), played.entries))
}

#[test]
fn two_pieces_meet(rt: HostRuntime) -> Result<(), Fail> {
    for line in MODES {
        assert!(rt; meetings(&rt, rt.alloc(), line)? == (4, 2), "{line}");
    }
    Ok(())
}

// Large batches and small ones, with values put again, removals, and a removal of nothing.
const BATCHES: &[Lines] = &[
    ("put", 0, 10_000, " =31"),
    ("put", 1000, 1600, " =3233"),
    ("del", 1500, 2000, ""),
    ("put", 2400, 2401, " ="),
    ("del", 19_000, 19_001, ""),
];

// The words that ask for a run with this number of workers.
fn words_by(alloc: Global, workers: u64) -> Result<Vec<String>, Fail> {
    let line = format!(in alloc; "run --workers {workers}")?;
    words_of(alloc, line.as_str())
}

// A run of a script with this number of workers.
fn played_by<H: Threads + Wait + Sync>(
    rt: &H,
    alloc: Global,
    workers: u64,
    script: &[u8],
) -> Result<Played<MemDisk>, Fail> {
    let words = words_by(alloc, workers)?;
    let disk = roomy_disk(alloc)?;
    play_gated(rt, alloc, disk, &words, script, &FreeGate)
}

// Whether a run with this number of workers is the same as the run with one.
fn is_same<H: Threads + Wait + Sync>(
    rt: &H,
    alloc: Global,
    alone: &Played<MemDisk>,
    workers: u64,
    script: &[u8],
) -> Result<bool, Fail> {
    let played = played_by(rt, alloc, workers, script)?;
    Ok(are_same(alone, &played))
}

// Whether the runs with one worker, and with this number, are the same and made an entry of each batch.
fn change_nothing<H: Threads + Wait + Sync>(
    rt: &H,
    alloc: Global,
    workers: u64,
    script: &[u8],
) -> Result<bool, Fail> {
    let alone = played_by(rt, alloc, 1, script)?;
    let same = is_same(rt, alloc, &alone, workers, script)?;
    Ok(same && alone.entries == BATCHES.len() as u64)
}

#[test]
fn no_number_of_workers_changes_what_is_written(rt: HostRuntime) -> Result<(), Fail> {
    let script = script_of(rt.alloc(), BATCHES)?;
    for workers in &[2, 7, 64] {
        assert!(rt;
            change_nothing(&rt, rt.alloc(), *workers, &script)?,
            "{workers} workers"
        );
    }
    Ok(())
}
