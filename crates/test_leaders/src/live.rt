// The blocks of a landing are written before the source is asked for more: by a source that looks at what the sink has taken
// whenever it is asked.
ghost use Rattle.std.specs.Prelude.{◌≡◌, ◌+◌, ◌-◌, ◌<◌, ◌≤◌, ◌^◌, ◌++◌, length, take, drop, None, IfSome, IfOk, OnOk, OnErr, IsErr, option_map};
ghost use Rattle.jf_path.specs.Faults.{HasCause};

use crate::samples::{CHAIN, COMMITS};
use jf_io::{IoFailed, MemSource, Sink, Source};
use jf_join::FreeGate;
use jf_path::Bytes;
use jf_play::play::{new_disk, one_word};
use jf_run::run_words::run_words;
use jf_run::status::Status;
use std::alloc::Global;
use std::cell::Cell;
use std::sync::Wait;
use std::test::Fail;
use std::thread::Threads;

// A sink that takes all bytes, and counts them where others see it.
#[derive(Drop)]
struct CountingSink<'a> {
    taken: &'a Cell<u64>,
}

impl Sink for CountingSink<'_> {
    ghost text = { λ _. None };

    ghost faults = { λ _. 0 };

    fn put(&mut self, bytes: &[u8]) -> Result<usize, IoFailed> {
        self.taken
            .set(self.taken.get().saturating_add(bytes.len() as u64));
        Ok(bytes.len())
    }

    fn faults(&self) -> u64 {
        0
    }
}

// A source that notes at each call whether the sink has taken as many bytes as it should have by then.
#[derive(Drop)]
struct LookingSource<'a> {
    script: MemSource,
    taken: &'a Cell<u64>,
    wanted: &'static [u64],
    calls: usize,
    is_late: bool,
}

impl Source for LookingSource<'_> {
    ghost rest = { λ _. None };

    ghost given = { λ s. s.script.given };

    ghost faults = { λ s. s.script.calls.faults };

    fn take(&mut self, buf: &mut [u8]) -> Result<usize, IoFailed> {
        if self.wanted.get(self.calls) != Some(&self.taken.get()) {
            self.is_late = true;
        }
        self.calls = self.calls.saturating_add(1);
        self.script.take(buf)
    }

    fn taken_count(&self) -> u64 {
        self.script.taken_count()
    }

    fn faults(&self) -> u64 {
        self.script.faults()
    }
}

// A script, how many bytes the source gives in a call, and how many bytes of blocks the sink has by each call of the source.
struct Row {
    script: &'static str,
    piece: usize,
    wanted: &'static [u64],
}

// A block has 150 bytes. A commit and the line before it have 18, and the lines of the chain 67.
const ROWS: &[Row] = &[
    Row {
        script: COMMITS,
        piece: 18,
        wanted: &[0, 150, 300, 450],
    },
    // The line feed of a commit comes in a call of its own.
    Row {
        script: COMMITS,
        piece: 17,
        wanted: &[0, 0, 150, 300, 450],
    },
    Row {
        script: COMMITS,
        piece: 1_000,
        wanted: &[0, 450],
    },
    Row {
        script: CHAIN,
        piece: 67,
        wanted: &[0, 450],
    },
    Row {
        script: CHAIN,
        piece: 66,
        wanted: &[0, 0, 450],
    },
];

// A row's script, in its pieces.
fn script_of(alloc: Global, row: &Row) -> Result<MemSource, Fail> {
    let bytes = Bytes::copy_of(alloc, row.script.as_bytes())?;
    Ok(MemSource::new(bytes, row.piece.max(1), Vec::new(alloc)))
}

// Whether each block of a script is written in time, by a sink that counts what it has taken where the source looks.
fn is_led_in_time<H: Threads + Wait + Sync>(
    rt: &H,
    alloc: Global,
    script: MemSource,
    wanted: &'static [u64],
    taken: &Cell<u64>,
) -> Result<bool, Fail> {
    let mut source = LookingSource {
        script,
        taken,
        wanted,
        calls: 0,
        is_late: false,
    };
    let mut sink = CountingSink { taken };
    let disk = Box::into_inner(new_disk(alloc, b"", &[])?);
    let words = one_word(alloc, "lead")?;
    let ended = run_words(rt, alloc, &words, &mut source, &mut sink, disk, &FreeGate);
    let is_done = ended.status == Status::Done && source.calls == wanted.len();
    Ok(is_done && !source.is_late)
}

// Whether each block of a row's script is written in time.
fn is_in_time<H: Threads + Wait + Sync>(rt: &H, alloc: Global, row: &Row) -> Result<bool, Fail> {
    let taken = Cell::new(0);
    is_led_in_time(rt, alloc, script_of(alloc, row)?, row.wanted, &taken)
}

#[test]
fn blocks_are_written_before_the_source_is_asked_for_more(rt: HostRuntime) -> Result<(), Fail> {
    for row in ROWS {
        assert!(rt; is_in_time(&rt, rt.alloc(), row)?, "of {}", row.piece);
    }
    Ok(())
}
