// What two files show, by their bytes, and what a sink that fails is given.
use crate::parts::{
    BEHIND, CHECKPOINT, CLOSED, FLOOR, FLOOR_ABOVE, FORMAT_ONE, LANDING, LANDINGS, OTHER_KIND,
    SECOND, SHORT, SHORT_LATER, WRONG_ROOT,
};
use jf_check::{StoreCheck, Unchecked, check_disk, check_files};
use jf_folder::{AnyDisk, FolderBytes};
use jf_io::MemSink;
use jf_join::Workers;
use std::alloc::Global;
use std::test::Fail;
use std::thread::Threads;

// The parts of a file, one after another; `None` is a file that is missing.
type File = Option<&'static [&'static [u8]]>;

// Two files, and the lines that tell of them.
type Row = (File, File, &'static str);

const NEW: File = Some(&[CHECKPOINT, CLOSED]);

const LANDED: File = Some(&[CHECKPOINT, LANDING, CLOSED]);

const COMPACTED: File = Some(&[SECOND, CLOSED]);

const EMPTY: File = Some(&[]);

const CUT_OFF: File = Some(&[SECOND]);

const SOUND: &[Row] = &[
    (
        None,
        None,
        "a.jf absent\nb.jf absent\nlive none kept 1 checkpoint 101\n",
    ),
    (
        EMPTY,
        Some(&[CLOSED, BEHIND]),
        "a.jf size 0 records 0 behind 0\nb.jf size 4 records 0 behind 3\nlive none kept 1 checkpoint 101\n",
    ),
    (
        Some(&[&[1]]),
        EMPTY,
        "a.jf size 1 records 0 behind 0\nb.jf size 0 records 0 behind 0\nlive none kept 1 checkpoint 101\n",
    ),
    (
        NEW,
        EMPTY,
        "a.jf size 101 generation 1 base 0 floor 0 head 0 records 100 behind 0\nb.jf size 0 records 0 behind 0\nlive a kept 1 checkpoint 101\n",
    ),
    (
        Some(&[FORMAT_ONE, CLOSED]),
        None,
        "a.jf size 101 generation 1 base 0 floor 0 head 0 records 100 behind 0\nb.jf absent\nlive a kept 1 checkpoint 101\n",
    ),
    (
        LANDED,
        None,
        "a.jf size 223 generation 1 base 0 floor 0 head 1 records 222 behind 0\nb.jf absent\nlive a kept 2 checkpoint 188\n",
    ),
    (
        EMPTY,
        Some(&[CHECKPOINT, LANDING, CLOSED, BEHIND]),
        "a.jf size 0 records 0 behind 0\nb.jf size 226 generation 1 base 0 floor 0 head 1 records 222 behind 3\nlive b kept 2 checkpoint 188\n",
    ),
    (
        Some(&[CHECKPOINT, LANDING, FLOOR, CLOSED]),
        EMPTY,
        "a.jf size 241 generation 1 base 0 floor 1 head 1 records 240 behind 0\nb.jf size 0 records 0 behind 0\nlive a kept 1 checkpoint 170\n",
    ),
    (
        Some(&[CHECKPOINT, LANDINGS, CLOSED]),
        EMPTY,
        "a.jf size 306 generation 1 base 0 floor 0 head 2 records 305 behind 0\nb.jf size 0 records 0 behind 0\nlive a kept 3 checkpoint 238\n",
    ),
    (
        LANDED,
        COMPACTED,
        "a.jf size 223 generation 1 base 0 floor 0 head 1 records 222 behind 0\nb.jf size 188 generation 2 base 0 floor 0 head 1 records 187 behind 0\nlive b kept 2 checkpoint 188\n",
    ),
    (
        COMPACTED,
        NEW,
        "a.jf size 188 generation 2 base 0 floor 0 head 1 records 187 behind 0\nb.jf size 101 generation 1 base 0 floor 0 head 0 records 100 behind 0\nlive a kept 2 checkpoint 188\n",
    ),
    // What isn't live means nothing, if it begins with a checkpoint.
    (
        Some(&[SHORT, CLOSED]),
        COMPACTED,
        "a.jf size 19 records 18 behind 0\nb.jf size 188 generation 2 base 0 floor 0 head 1 records 187 behind 0\nlive b kept 2 checkpoint 188\n",
    ),
];

const DAMAGED: &[Row] = &[
    (
        Some(&[CHECKPOINT, LANDING]),
        EMPTY,
        "a.jf size 222 damaged 100\nb.jf size 0 records 0 behind 0\ndamaged a 100\n",
    ),
    (
        NEW,
        CUT_OFF,
        "a.jf size 101 generation 1 base 0 floor 0 head 0 records 100 behind 0\nb.jf size 187 damaged 0\ndamaged b 0\n",
    ),
    // Gates and lengths go before first records.
    (
        Some(&[OTHER_KIND, CLOSED]),
        CUT_OFF,
        "a.jf size 11 damaged 0\nb.jf size 187 damaged 0\ndamaged b 0\n",
    ),
    (
        Some(&[OTHER_KIND, CLOSED]),
        COMPACTED,
        "a.jf size 11 damaged 0\nb.jf size 188 generation 2 base 0 floor 0 head 1 records 187 behind 0\ndamaged a 0\n",
    ),
    (
        NEW,
        NEW,
        "a.jf size 101 generation 1 base 0 floor 0 head 0 records 100 behind 0\nb.jf size 101 generation 1 base 0 floor 0 head 0 records 100 behind 0\ndamaged b 0\n",
    ),
    (
        Some(&[CHECKPOINT, WRONG_ROOT, CLOSED]),
        EMPTY,
        "a.jf size 223 generation 1 base 0 floor 0 head 1 records 222 behind 0\nb.jf size 0 records 0 behind 0\ndamaged a 100\n",
    ),
    // The first of two unsound records.
    (
        Some(&[CHECKPOINT, FLOOR_ABOVE, WRONG_ROOT, CLOSED]),
        EMPTY,
        "a.jf size 241 generation 1 base 0 floor 9 head 1 records 240 behind 0\nb.jf size 0 records 0 behind 0\ndamaged a 100\n",
    ),
    (
        COMPACTED,
        Some(&[SHORT_LATER, CLOSED]),
        "a.jf size 188 generation 2 base 0 floor 0 head 1 records 187 behind 0\nb.jf size 19 records 18 behind 0\ndamaged b 0\n",
    ),
];

fn bytes_of(alloc: Global, file: File) -> Result<Option<Vec<u8>>, Fail> {
    let Some(parts) = file else {
        return Ok(None);
    };
    let mut bytes = Vec::new(alloc);
    for part in parts {
        bytes.extend_from_slice(part)?;
    }
    Ok(Some(bytes))
}

// Checks two files into a sink.
fn check<H: Threads + Sync>(
    rt: &H,
    alloc: Global,
    row: &Row,
    sink: &mut MemSink,
) -> Result<Result<StoreCheck, Unchecked>, Fail> {
    let (a, b) = (bytes_of(alloc, row.0)?, bytes_of(alloc, row.1)?);
    Ok(check_files(rt, alloc, a, b, Workers::ONE, sink))
}

// Checks a disk that shows two files, into a sink.
fn check_seen<H: Threads + Sync>(
    rt: &H,
    alloc: Global,
    row: &Row,
    sink: &mut MemSink,
) -> Result<Result<StoreCheck, Unchecked>, Fail> {
    let (a, b) = (bytes_of(alloc, row.0)?, bytes_of(alloc, row.1)?);
    let disk = AnyDisk::of_bytes(alloc, FolderBytes { a, b }, 4)?;
    let mut disk = Box::new(alloc, disk)?;
    Ok(check_disk(rt, alloc, &mut *disk, Workers::ONE, sink))
}

fn sink_of(alloc: Global, room: u64) -> Result<Box<MemSink>, Fail> {
    let sink = MemSink::new(alloc, 80, room, Vec::new(alloc))?;
    Ok(Box::new(alloc, sink)?)
}

// Whether two files are reported so, and are sound or not.
fn are_shown<H: Threads + Sync>(
    rt: &H,
    alloc: Global,
    row: &Row,
    is_sound: bool,
) -> Result<bool, Fail> {
    let mut sink = sink_of(alloc, 500)?;
    let store = check(rt, alloc, row, &mut sink)??;
    let is_found_sound = matches!(store, StoreCheck::Sound { .. });
    Ok(is_found_sound == is_sound && sink.text() == row.2.as_bytes())
}

#[test]
fn sound_files_are_told_of(rt: HostRuntime) -> Result<(), Fail> {
    for row in SOUND {
        assert!(rt; are_shown(&rt, rt.alloc(), row, true)?, "of {}", row.2);
    }
    Ok(())
}

#[test]
fn damaged_files_are_told_of(rt: HostRuntime) -> Result<(), Fail> {
    for row in DAMAGED {
        assert!(rt; are_shown(&rt, rt.alloc(), row, false)?, "of {}", row.2);
    }
    Ok(())
}

// Whether a disk that shows two files is reported as these are.
fn has_report<H: Threads + Sync>(rt: &H, alloc: Global, row: &Row) -> Result<bool, Fail> {
    let mut sinks = (sink_of(alloc, 500)?, sink_of(alloc, 500)?);
    let of_files = check(rt, alloc, row, &mut sinks.0)?;
    let of_disk = check_seen(rt, alloc, row, &mut sinks.1)?;
    Ok(of_files == of_disk && sinks.0.text() == sinks.1.text())
}

#[test]
fn a_disk_is_told_of_as_its_files(rt: HostRuntime) -> Result<(), Fail> {
    for row in SOUND {
        assert!(rt; has_report(&rt, rt.alloc(), row)?, "of {}", row.2);
    }
    for row in DAMAGED {
        assert!(rt; has_report(&rt, rt.alloc(), row)?, "of {}", row.2);
    }
    Ok(())
}

// Whether a sink with so much room gets a front of the lines, and no more.
fn is_cut_at<H: Threads + Sync>(
    rt: &H,
    alloc: Global,
    row: &Row,
    room: usize,
) -> Result<bool, Fail> {
    let mut sink = sink_of(alloc, room as u64)?;
    let outcome = check(rt, alloc, row, &mut sink)?;
    Ok(outcome == Err(Unchecked::WriteFault) && row.2.as_bytes().get(..room) == Some(sink.text()))
}

#[test]
fn a_sink_that_fails_has_a_front(rt: HostRuntime) -> Result<(), Fail> {
    for room in [0, 1, 79, 80, 81, 130] {
        assert!(rt; is_cut_at(&rt, rt.alloc(), &SOUND[9], room)?, "at {room}");
    }
    Ok(())
}
