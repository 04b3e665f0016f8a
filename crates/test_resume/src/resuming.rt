// The mode `resume` over stores that other words left: a run if the announced root is there, and otherwise nothing. In words
// letters represent roots, as in `with_roots`: E for that of the empty map, R for that of `put 61 =31`.
use jf_disk::{Disk, MemDisk, Side};
use jf_hash::Hash;
use jf_play::files::{CHECKPOINT, END, File, LANDING, LANDING_OF_NOTHING, file_bytes};
use jf_play::play::{Faults, NO_FAULTS, Played, are_same, disk_of, has_ended, new_disk, play_line};
use jf_play::roots::with_roots;
use jf_run::status::Status;
use std::alloc::Global;
use std::str;
use std::sync::Wait;
use std::test::Fail;
use std::thread::Threads;

// The root of the empty map, and of `put 61 =31`.
const OF_NONE: Hash = [
    110, 52, 11, 156, 255, 179, 122, 152, 156, 165, 68, 230, 187, 120, 10, 44, 120, 144, 29, 63,
    179, 55, 56, 118, 133, 17, 163, 6, 23, 175, 160, 29,
];

const OF_ONE: Hash = [
    155, 183, 44, 57, 241, 61, 43, 81, 46, 163, 78, 174, 153, 162, 143, 109, 128, 122, 19, 74, 177,
    37, 232, 145, 114, 49, 12, 111, 110, 167, 47, 143,
];

// Words, with letters for roots, and their input.
type Words = (&'static str, &'static str);

// Nothing was done before.
const NOTHING: Words = ("run", "");

// Versions 0 to 2, of which the first and the last are empty.
const THREE_VERSIONS: Words = ("run", "put 61 =31\ncommit\ndel 61\ncommit\n");

// The same, of which the files keep the last alone, and the roots of all.
const PRUNED: Words = (
    "run",
    "put 61 =31\ncommit\ndel 61\ncommit\nprune 2\ncompact\n",
);

// Version 5 alone, and one more.
const RESTORED: Words = ("restore 5 E", "");

// Runs words with letters for roots over a disk and an input.
fn play_roots<H: Threads + Wait + Sync>(
    rt: &H,
    alloc: Global,
    disk: Box<MemDisk>,
    words: Words,
    faults: Faults,
) -> Result<Played<MemDisk>, Fail> {
    let line = with_roots(alloc, words.0)?;
    match str::from_utf8(&line) {
        Ok(line) => play_line(rt, alloc, disk, line, words.1.as_bytes(), faults),
        Err(_) => Err(Fail::new("no text")),
    }
}

// The disk that words over a new store leave.
fn left_by<H: Threads + Wait + Sync>(
    rt: &H,
    alloc: Global,
    words: Words,
) -> Result<Box<MemDisk>, Fail> {
    let disk = new_disk(alloc, b"", &[])?;
    Ok(play_roots(rt, alloc, disk, words, NO_FAULTS)?.disk)
}

// Words over a new store, and words after which its root is there.
const THERE: &[(Words, &str)] = &[
    (NOTHING, "resume 0 E"),
    (THREE_VERSIONS, "resume 2 E"),
    (THREE_VERSIONS, "resume 1 R"),
    (THREE_VERSIONS, "resume 0 E --workers 2"),
    (PRUNED, "resume 1 R"),
    (PRUNED, "resume --workers=1 2 E"),
    (RESTORED, "resume 5 E"),
];

const SCRIPT: &str = "status\nput 62 =32\ncommit\nroot head\n";

// Runs words with the script over what a row's words left.
fn play_over<H: Threads + Wait + Sync>(
    rt: &H,
    alloc: Global,
    left: Words,
    line: &'static str,
) -> Result<Played<MemDisk>, Fail> {
    let disk = left_by(rt, alloc, left)?;
    play_roots(rt, alloc, disk, (line, SCRIPT), NO_FAULTS)
}

// Whether a run over what words left does what these did.
fn does_the_same<H: Threads + Wait + Sync>(
    rt: &H,
    alloc: Global,
    left: Words,
    resumed: &Played<MemDisk>,
) -> Result<bool, Fail> {
    let ran = play_over(rt, alloc, left, "run")?;
    Ok(are_same(resumed, &ran) && resumed.start == ran.start && resumed.entries == 1)
}

// Whether the words of a row do what `run` does.
fn goes_on<H: Threads + Wait + Sync>(
    rt: &H,
    alloc: Global,
    row: &(Words, &'static str),
) -> Result<bool, Fail> {
    let resumed = play_over(rt, alloc, row.0, row.1)?;
    does_the_same(rt, alloc, row.0, &resumed)
}

#[test]
fn a_store_with_the_root_goes_on(rt: HostRuntime) -> Result<(), Fail> {
    for row in THERE {
        assert!(rt; goes_on(&rt, rt.alloc(), row)?, "of {}", row.1);
    }
    Ok(())
}

// The first call of the source and of the sink fails: neither is asked.
const UNTOUCHED: Faults = Faults {
    piece: 100,
    source: &[0],
    sink: &[0],
};

// Words over a new store, words for which another root is there, and the newest version and its root.
const ELSEWHERE: &[(Words, &str, u64, Hash)] = &[
    (NOTHING, "resume 0 R", 0, OF_NONE),
    (NOTHING, "resume 1 E", 0, OF_NONE),
    (THREE_VERSIONS, "resume 2 R", 2, OF_NONE),
    (THREE_VERSIONS, "resume 1 E", 2, OF_NONE),
    (THREE_VERSIONS, "resume 3 E", 2, OF_NONE),
    (THREE_VERSIONS, "resume 18446744073709551615 E", 2, OF_NONE),
    (PRUNED, "resume 1 E", 2, OF_NONE),
    (RESTORED, "resume 4 E", 5, OF_NONE),
    (RESTORED, "resume 0 E", 5, OF_NONE),
    (("run", "put 61 =31\ncommit\n"), "resume 0 R", 1, OF_ONE),
];

// The bytes of both sides of a disk.
type Sides = (Vec<u8>, Vec<u8>);

fn sides_of(alloc: Global, disk: &MemDisk) -> Result<Sides, Fail> {
    let a = disk.bytes(Side::A).to_vec(alloc)?;
    let b = disk.bytes(Side::B).to_vec(alloc)?;
    Ok((a, b))
}

// Whether both sides have these bytes.
fn has_sides(disk: &MemDisk, sides: &Sides) -> bool {
    disk.bytes(Side::A) == sides.0.as_slice() && disk.bytes(Side::B) == sides.1.as_slice()
}

// The number of calls that an opening makes: both sides synced, and the length and the bytes of each.
const CALLS: u64 = 6;

// Whether a run that began at a moment of the disk ended elsewhere, at this version with this root, asked for nothing of source
// or sink, and did no more with the disk than read it.
fn ended_elsewhere(
    played: &Played<MemDisk>,
    moment: u64,
    start: Option<u64>,
    place: (u64, Hash),
    sides: &Sides,
) -> bool {
    let (head, root) = place;
    let ended = has_ended(played, Status::Elsewhere { head, root }, start, b"");
    let calls = moment.checked_add(CALLS) == Some(played.disk.moment());
    ended && calls && played.entries == 0 && has_sides(&played.disk, sides)
}

// Whether words over a disk that holds these sides end elsewhere, and leave them.
fn is_elsewhere<H: Threads + Wait + Sync>(
    rt: &H,
    alloc: Global,
    disk: Box<MemDisk>,
    line: &'static str,
    start: Option<u64>,
    place: (u64, Hash),
    sides: &Sides,
) -> Result<bool, Fail> {
    let moment = disk.moment();
    let played = play_roots(rt, alloc, disk, (line, SCRIPT), UNTOUCHED)?;
    Ok(ended_elsewhere(&played, moment, start, place, sides))
}

// Whether the words of a row find the store elsewhere, and leave it as it was.
fn finds_another<H: Threads + Wait + Sync>(
    rt: &H,
    alloc: Global,
    row: &(Words, &'static str, u64, Hash),
) -> Result<bool, Fail> {
    let disk = left_by(rt, alloc, row.0)?;
    let sides = sides_of(alloc, &disk)?;
    is_elsewhere(rt, alloc, disk, row.1, Some(row.2), (row.2, row.3), &sides)
}

#[test]
fn a_store_with_another_root_is_left_as_it_was(rt: HostRuntime) -> Result<(), Fail> {
    for row in ELSEWHERE {
        assert!(rt; finds_another(&rt, rt.alloc(), row)?, "of {}", row.1);
    }
    Ok(())
}

// Both sides of a store of two versions whose second one has a gate that reads wrong, so that the records end before it.
fn rolled_back(alloc: Global) -> Result<Sides, Fail> {
    const WHOLE: File = &[CHECKPOINT, LANDING, LANDING_OF_NOTHING, END];
    let mut a = file_bytes(alloc, WHOLE)?;
    let front = file_bytes(alloc, &[CHECKPOINT, LANDING])?;
    match a.get_mut(front.len()) {
        Some(gate) => *gate = 0x02,
        None => return Err(Fail::new("no gate")),
    }
    Ok((a, Vec::new(alloc)))
}

// Whether the version before such a gate is found, and no byte of the store changes.
fn finds_rolled_back<H: Threads + Wait + Sync>(rt: &H, alloc: Global) -> Result<bool, Fail> {
    let sides = rolled_back(alloc)?;
    let disk = disk_of(alloc, &sides.0, &sides.1, &[])?;
    is_elsewhere(rt, alloc, disk, "resume 2 R", Some(1), (1, OF_ONE), &sides)
}

#[test]
fn a_gate_that_reads_wrong_is_noticed(rt: HostRuntime) -> Result<(), Fail> {
    assert!(rt; finds_rolled_back(&rt, rt.alloc())?);
    Ok(())
}

// How many bytes of the first checkpoint a crash left behind its gate, which is still closed: none at all, the gate alone, and
// up to the whole record with the gate after it.
const TORN: &[usize] = &[0, 1, 2, 50, 100, 101];

// Both sides of a store that so many bytes are left of.
fn torn_sides(alloc: Global, count: usize) -> Result<Sides, Fail> {
    const FIRST: File = &[CHECKPOINT, END];
    let mut a = file_bytes(alloc, FIRST)?;
    match a.get_mut(0) {
        Some(gate) => *gate = 0,
        None => return Err(Fail::new("no gate")),
    }
    a.truncate(count);
    Ok((a, Vec::new(alloc)))
}

// A version and a root that no new store has: another version, and another root.
const OF_NO_NEW_STORE: &[&str] = &["resume 1 E", "resume 0 R"];

// Whether words find no store in files without a record, and begin none.
fn finds_none<H: Threads + Wait + Sync>(
    rt: &H,
    alloc: Global,
    count: usize,
    line: &'static str,
) -> Result<bool, Fail> {
    let sides = torn_sides(alloc, count)?;
    let disk = disk_of(alloc, &sides.0, &sides.1, &[])?;
    is_elsewhere(rt, alloc, disk, line, None, (0, OF_NONE), &sides)
}

#[test]
fn a_lost_store_is_not_begun_anew(rt: HostRuntime) -> Result<(), Fail> {
    for line in OF_NO_NEW_STORE {
        for count in TORN {
            assert!(rt;
                finds_none(&rt, rt.alloc(), *count, *line)?,
                "{line} of {count}"
            );
        }
    }
    Ok(())
}

// Whether a call on the disk that fails ends such a run, and leaves files without a record as they were.
fn stops_well<H: Threads + Wait + Sync>(rt: &H, alloc: Global, failing: u64) -> Result<bool, Fail> {
    let sides = torn_sides(alloc, 50)?;
    let disk = disk_of(alloc, &sides.0, &sides.1, &[failing])?;
    let played = play_roots(rt, alloc, disk, ("resume 1 E", SCRIPT), UNTOUCHED)?;
    Ok(has_ended(&played, Status::DiskFault, None, b"") && has_sides(&played.disk, &sides))
}

#[test]
fn a_fault_begins_no_store_either(rt: HostRuntime) -> Result<(), Fail> {
    for failing in 0..CALLS {
        assert!(rt; stops_well(&rt, rt.alloc(), failing)?, "at {failing}");
    }
    Ok(())
}

// Whether the words with the root of a new store begin files without a record, and go on as `run`.
fn begins<H: Threads + Wait + Sync>(rt: &H, alloc: Global, count: usize) -> Result<bool, Fail> {
    const BEGUN: File = &[CHECKPOINT, LANDING, END];
    let sides = torn_sides(alloc, count)?;
    let disk = disk_of(alloc, &sides.0, &sides.1, &[])?;
    let words = ("resume 0 E", "put 61 =31\ncommit\n");
    let played = play_roots(rt, alloc, disk, words, NO_FAULTS)?;
    let ended = played.status == Status::Done && played.start == Some(0) && played.entries == 1;
    let want = (file_bytes(alloc, BEGUN)?, Vec::new(alloc));
    Ok(ended && has_sides(&played.disk, &want))
}

#[test]
fn the_root_of_a_new_store_begins_one(rt: HostRuntime) -> Result<(), Fail> {
    for count in TORN {
        assert!(rt; begins(&rt, rt.alloc(), *count)?, "of {count}");
    }
    Ok(())
}
