// Two files byte by byte: what an opening finds, what is written to a folder, and what a crash leaves.
ghost use Rattle.std.specs.Prelude.{◌≡◌, [], false};
ghost use Rattle.jf_disk.specs.Memory.{history_of};
ghost use Rattle.jf_pair.specs.Pairs.{IsInStep};

use jf_disk::{Disk, MemDisk, Side};
use jf_folder::FileDisk;
use jf_frame::{DiskFault, Log};
use jf_pair::{Pair, PairFault};
use std::alloc::Global;
use std::fs;
use std::test::Fail;

// The number of live records that an opening of two files finds, or `None` if it finds none.
type Opened = Result<Option<usize>, PairFault>;

fn count_of(log: Option<Log>) -> Option<usize> {
    match log {
        Some(log) => Some(log.count()),
        None => None,
    }
}

fn count_on(alloc: Global, disk: &mut MemDisk) -> Opened {
    let (pair, log) = Pair::open(alloc, disk)?;
    drop(pair);
    Ok(count_of(log))
}

fn count_in(alloc: Global, a: &[u8], b: &[u8]) -> Result<Opened, Fail> {
    let (a, b) = (a.to_vec(alloc)?, b.to_vec(alloc)?);
    let disk = MemDisk::new(alloc, a, b, 9, 0, Vec::new(alloc))?;
    let mut disk = Box::new(alloc, disk)?;
    Ok(count_on(alloc, &mut disk))
}

// Files: a checkpoint of generation 1; one of generation 2 and one more record; a first record of another kind; a
// checkpoint with a payload of 7 bytes; a record that breaks off.
const ONE: &[u8] = &[1, 4, 0, 0, 0, 0, 0, 0, 0, 8, 0, 0, 0, 0, 0, 0, 0, 1, 0];

const TWO: &[u8] = &[
    1, 5, 0, 0, 0, 0, 0, 0, 0, 8, 0, 0, 0, 0, 0, 0, 0, 2, 1, 7, 0, 0, 0, 0, 0, 0, 0, 0, 0,
];

const OTHER_KIND: &[u8] = &[1, 7, 0, 0, 0, 0, 0, 0, 0, 0, 0];

const SHORT: &[u8] = &[1, 4, 0, 0, 0, 0, 0, 0, 0, 7, 0, 0, 0, 0, 0, 0, 1, 0];

const CUT_OFF: &[u8] = &[
    1, 5, 0, 0, 0, 0, 0, 0, 0, 8, 0, 0, 0, 0, 0, 0, 0, 2, 1, 7, 0, 0, 0, 0, 0, 0, 0, 0,
];

const AT_FIRST_OF_A: Opened = Err(PairFault::Damaged {
    side: Side::A,
    offset: 0,
});

const AT_SECOND_OF_A: Opened = Err(PairFault::Damaged {
    side: Side::A,
    offset: 18,
});

const AT_FIRST_OF_B: Opened = Err(PairFault::Damaged {
    side: Side::B,
    offset: 0,
});

const AT_SECOND_OF_B: Opened = Err(PairFault::Damaged {
    side: Side::B,
    offset: 18,
});

const OPENINGS: &[(&[u8], &[u8], Opened)] = &[
    (&[], &[], Ok(None)),
    (&[1], &[0, 1, 1], Ok(None)),
    (ONE, &[], Ok(Some(1))),
    (&[0], ONE, Ok(Some(1))),
    (ONE, TWO, Ok(Some(2))),
    (TWO, ONE, Ok(Some(2))),
    (ONE, ONE, AT_FIRST_OF_B),
    (&[1, 7], &[1, 7], AT_FIRST_OF_A),
    (ONE, &[1, 7], AT_FIRST_OF_B),
    (CUT_OFF, ONE, AT_SECOND_OF_A),
    (OTHER_KIND, CUT_OFF, AT_SECOND_OF_B),
    (OTHER_KIND, ONE, AT_FIRST_OF_A),
    (OTHER_KIND, OTHER_KIND, AT_FIRST_OF_A),
    (SHORT, &[], AT_FIRST_OF_A),
    (ONE, OTHER_KIND, AT_FIRST_OF_B),
];

#[test]
fn the_greater_generation_is_live(rt: HostRuntime) -> Result<(), Fail> {
    for (a, b, want) in OPENINGS {
        assert!(rt; count_in(rt.alloc(), a, b)? == *want, "of {a:?} and {b:?}");
    }
    Ok(())
}

// Frames: a checkpoint of generation 1, one of generation 2 of the other kind, and another record.
const FIRST: [u8; 18] = [4, 0, 0, 0, 0, 0, 0, 0, 8, 0, 0, 0, 0, 0, 0, 0, 1, 0];

const SECOND: [u8; 18] = [5, 0, 0, 0, 0, 0, 0, 0, 8, 0, 0, 0, 0, 0, 0, 0, 2, 0];

const MORE: [u8; 13] = [7, 0, 0, 0, 0, 0, 0, 0, 3, 97, 98, 99, 0];

// The bytes of both files after these frames were written.
const SIDE_A: &[u8] = &[
    1, 4, 0, 0, 0, 0, 0, 0, 0, 8, 0, 0, 0, 0, 0, 0, 0, 1, 1, 7, 0, 0, 0, 0, 0, 0, 0, 3, 97, 98, 99,
    0,
];

const SIDE_B: &[u8] = &[1, 5, 0, 0, 0, 0, 0, 0, 0, 8, 0, 0, 0, 0, 0, 0, 0, 2, 0];

// Writes a first checkpoint, a record after it, and a second checkpoint.
fn write_files(pair: &mut Pair, disk: &mut FileDisk) -> Result<(), DiskFault>
    requires { pair.old.failed ≡ false }
{
    pair.switch(disk, &FIRST)?;
    pair.append(disk, &MORE)?;
    pair.switch(disk, &SECOND)
}

// Opens a folder without records, and writes to it.
fn live_on_files(alloc: Global, disk: &mut FileDisk) -> Result<bool, PairFault> {
    let (mut pair, log) = Pair::open(alloc, disk)?;
    let count = count_of(log);
    write_files(&mut pair, disk)?;
    Ok(count.is_none() && pair.is_live() && !pair.has_failed())
}

fn live_in(rt: &HostRuntime, folder: &str) -> Result<bool, Fail> {
    let disk = FileDisk::at(rt, rt.alloc(), folder)?;
    let mut disk = Box::new(rt.alloc(), disk)?;
    Ok(live_on_files(rt.alloc(), &mut disk) == Ok(true))
}

// Makes a folder whose side A is empty, and whose side B holds bytes after a closed gate.
fn make(rt: &HostRuntime, folder: &str, side_a: &str, side_b: &str) -> Result<(), Fail> {
    let _ = fs::remove_dir_all(rt, folder);
    fs::create_dir(rt, folder)?;
    fs::write(rt, side_a, &[])?;
    fs::write(rt, side_b, [0x5a, 1, 2])?;
    Ok(())
}

fn has_bytes(rt: &HostRuntime, file: &str, want: &[u8]) -> Result<bool, Fail> {
    let bytes = fs::read(rt, file)?;
    Ok(bytes.as_slice() == want)
}

#[test]
fn checkpoints_go_to_the_sides_in_turn(rt: HostRuntime) -> Result<(), Fail> {
    make(
        &rt,
        "jf_pair_in_turn",
        "jf_pair_in_turn/a.jf",
        "jf_pair_in_turn/b.jf",
    )?;
    assert!(rt; live_in(&rt, "jf_pair_in_turn")?);
    assert!(rt; has_bytes(&rt, "jf_pair_in_turn/a.jf", SIDE_A)?);
    assert!(rt; has_bytes(&rt, "jf_pair_in_turn/b.jf", SIDE_B)?);
    fs::remove_dir_all(&rt, "jf_pair_in_turn")?;
    Ok(())
}

// Writes the same three frames to a disk in memory that holds nothing.
fn write_memory(pair: &mut Pair, disk: &mut MemDisk) -> Result<(), DiskFault>
    requires sound { pair.old.failed ≡ false }
    requires in_step { IsInStep pair.old [] (history_of disk.old).now }
{
    pair.switch(disk, &FIRST)?;
    pair.append(disk, &MORE)?;
    pair.switch(disk, &SECOND)
}

// Opens a disk that holds nothing, and writes to it.
fn live_on(alloc: Global, disk: &mut MemDisk) -> Result<(), PairFault> {
    let (mut pair, log) = Pair::open(alloc, disk)?;
    if log.is_some() {
        return Err(PairFault::Memory);
    }
    drop(log);
    write_memory(&mut pair, disk)?;
    Ok(())
}

// An empty disk on which this call failed, if it was reached, after the frames were written, and whether all were.
fn disk_after_failure(alloc: Global, failing: u64) -> Result<(Box<MemDisk>, bool), Fail> {
    let listed = vec![in alloc; failing]?;
    let mut disk = MemDisk::new(alloc, Vec::new(alloc), Vec::new(alloc), 30, 80, listed)?;
    let is_written = live_on(alloc, &mut disk).is_ok();
    Ok((Box::new(alloc, disk)?, is_written))
}

// How many unsynced bytes a crash keeps, and the byte that all others become.
const CRASHES: &[(u64, u8)] = &[(0, 0), (0, 1), (1, 0), (17, 0xff), (1 << 62, 0)];

// Whether a crash at a moment leaves no live record, one, or two: a list that was live at some time.
fn leaves_a_list(
    alloc: Global,
    disk: &MemDisk,
    moment: u64,
    crash: (u64, u8),
) -> Result<bool, Fail> {
    if moment > disk.moment() {
        return Ok(false);
    }
    let image = disk.image(alloc, moment, crash.0, crash.1)?;
    let mut image = Box::new(alloc, image)?;
    let opened = count_on(alloc, &mut image);
    Ok(matches!(opened, Ok(None) | Ok(Some(1)) | Ok(Some(2))))
}

fn leave_lists(alloc: Global, disk: &MemDisk, moment: u64) -> Result<bool, Fail> {
    for crash in CRASHES {
        if !leaves_a_list(alloc, disk, moment, *crash)? {
            return Ok(false);
        }
    }
    Ok(true)
}

fn all_leave_lists(alloc: Global, disk: &MemDisk) -> Result<bool, Fail> {
    for moment in 0..=disk.moment() {
        if !leave_lists(alloc, disk, moment)? {
            return Ok(false);
        }
    }
    Ok(true)
}

fn stops_well(alloc: Global, failing: u64, moment: u64) -> Result<bool, Fail> {
    let (disk, is_written) = disk_after_failure(alloc, failing)?;
    Ok(
        disk.moment() == moment
            && is_written == (failing == u64::MAX)
            && all_leave_lists(alloc, &disk)?,
    )
}

// A call that fails, and how many calls are made in all. Opening makes six: sync twice, then length and read of each
// side. A switch to an empty side makes seven: length, closed gate, sync, frame, sync, gate, sync. An append makes the
// last four.
const STOPS: &[(u64, u64)] = &[
    (u64::MAX, 24),
    (0, 1),
    (1, 2),
    (6, 7),
    (7, 8),
    (10, 11),
    (11, 12),
    (12, 13),
    (13, 14),
    (16, 17),
    (18, 19),
    (19, 20),
    (22, 23),
];

#[test]
fn a_stop_at_any_moment_leaves_one_of_the_lists(rt: HostRuntime) -> Result<(), Fail> {
    for (failing, moment) in STOPS {
        assert!(rt; stops_well(rt.alloc(), *failing, *moment)?, "at {failing}");
    }
    Ok(())
}
