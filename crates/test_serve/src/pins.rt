// A version that one session has pinned is read there, whatever another session lands and retires.
use crate::serving::serve_gated;
use jf_disk::MemDisk;
use jf_join::Gate;
use jf_play::files::{CHECKPOINT, END, LANDING, file_bytes};
use jf_play::play::new_disk;
use std::alloc::Global;
use std::str;
use std::sync::Wait;
use std::sync::atomic::AtomicU64;
use std::sync::atomic::Ordering::SeqCst;
use std::test::Fail;
use std::thread::Threads;

// How often session 1 looks for the landing of session 0 before it goes on.
const TURNS: u64 = 100_000_000;

// Holds session 1 back until a landing has started.
#[derive(Drop)]
struct AfterLanding {
    begun: AtomicU64,
}

impl Gate for AfterLanding {
    fn begin(&self, _piece: u64) {
        self.begun.store(1, SeqCst);
    }

    fn session(&self, number: u64) {
        if number == 0 {
            return;
        }
        for _ in 0..TURNS {
            if self.begun.load(SeqCst) == 1 {
                return;
            }
        }
    }
}

// Session 0 pins version 1 before it lands anything, and reads it while session 1 lands versions and retires those before.
const INPUT: &[u8] = b"pin 1\nput 61 =32\nput 62 =33\ncommit\n\
    get p0 61\nget p0 61\nget p0 61\nget p0 61\nget p0 61\nget p0 61\nget p0 61\nget p0 61\n\
    root head\nget p0 61\nroot p0\nget p0 62\n\
    session\nput 61 =34\ncommit\nprune 2\nput 61 =35\ncommit\nprune 3\ncompact\nget v1 61\n";

// How lines of the text end, and how many do. Version 1 is `put 61 =31`, and its root R.
const ENDS: &[(&str, usize)] = &[
    (" ok pin 0\n", 1),
    (" ok value =31\n", 9),
    (
        " ok root 9bb72c39f13d2b512ea34eae99a28f6d807a134ab125e89172310c6f6ea72f8f\n",
        1,
    ),
    (" ok none\n", 1),
    (" ok prune 2 1\n", 1),
    (" ok prune 3 1\n", 1),
    (" ok compact 2\n", 1),
    (" no retired 3\n", 1),
];

// Whether as many lines end so as `ENDS` says.
fn are_all_there(text: &str) -> bool {
    for (end, count) in ENDS {
        if text.matches(*end).count() != *count {
            return false;
        }
    }
    true
}

// A disk that holds a store of version 1.
fn disk_of_one(alloc: Global) -> Result<Box<MemDisk>, Fail> {
    let file = file_bytes(alloc, &[CHECKPOINT, LANDING, END])?;
    new_disk(alloc, &file, &[])
}

// Fails unless the sessions are answered so over that store, and the gate was notified of a landing.
fn is_kept<H: Threads + Wait + Sync>(rt: &H, alloc: Global) -> Result<(), Fail> {
    let gate = AfterLanding {
        begun: AtomicU64::new(0),
    };
    let disk = disk_of_one(alloc)?;
    let played = serve_gated(rt, alloc, disk, INPUT, &gate)?;
    let has_begun = gate.begun.load(SeqCst) == 1;
    if has_begun && are_all_there(str::from_utf8(&played.text).unwrap_or("")) {
        Ok(())
    } else {
        Err(Fail::new("another reply"))
    }
}

#[test]
fn a_pinned_version_stays_beside_other_sessions(rt: HostRuntime) -> Result<(), Fail> {
    is_kept(&rt, rt.alloc())
}
