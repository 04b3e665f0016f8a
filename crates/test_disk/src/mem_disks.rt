// Disks in memory, call by call, and the images that crashes leave of them.
use jf_disk::{Disk, DiskFailed, MemDisk, Side};
use std::alloc::Global;
use std::test::Fail;

// One call on a disk, as a value of a table.
#[derive(Clone, Copy)]
pub(crate) enum Step {
    Put(Side, u64, &'static [u8]),
    Cut(Side, u64),
    Sync(Side),
    Len(Side),
    Read(Side, u64),
}

// A disk with this side A, with room for so many calls and written bytes, whose listed calls fail.
fn mem_disk(
    alloc: Global,
    a: &[u8],
    calls: u64,
    bytes: u64,
    failing: &[u64],
) -> Result<Box<MemDisk>, Fail> {
    let a = a.to_vec(alloc)?;
    let failing = failing.to_vec(alloc)?;
    let disk = MemDisk::new(alloc, a, Vec::new(alloc), calls, bytes, failing)?;
    Ok(Box::new(alloc, disk)?)
}

// What a call returns: a length, or how many bytes were read.
fn take_step(disk: &mut MemDisk, step: Step) -> Result<u64, DiskFailed> {
    match step {
        Step::Put(side, at, bytes) => put(disk, side, at, bytes),
        Step::Cut(side, len) => cut(disk, side, len),
        Step::Sync(side) => disk.sync(side).map(|_| 0),
        Step::Len(side) => disk.len(side),
        Step::Read(side, at) => disk.read(side, at, &mut [0; 4]).map(|n| n as u64),
    }
}

// A call, and what it should return.
type Taken = (Step, Result<u64, DiskFailed>);

// Whether these calls, one after another, return what they should.
fn takes(disk: &mut MemDisk, steps: &[Taken]) -> bool {
    for (step, want) in steps {
        if take_step(disk, *step) != *want {
            return false;
        }
    }
    true
}

// Writes at an offset that is within the side.
fn put(disk: &mut MemDisk, side: Side, at: u64, bytes: &[u8]) -> Result<u64, DiskFailed> {
    if at > disk.bytes(side).len() as u64 {
        return Err(DiskFailed);
    }
    disk.write_at(side, at, bytes).map(|_| 0)
}

fn cut(disk: &mut MemDisk, side: Side, len: u64) -> Result<u64, DiskFailed> {
    if len > disk.bytes(side).len() as u64 {
        return Err(DiskFailed);
    }
    disk.cut(side, len).map(|_| 0)
}

// Whether a disk has these bytes on its sides, and these counts.
fn holds(disk: &MemDisk, a: &[u8], b: &[u8], moment: u64, faults: u64) -> bool {
    disk.bytes(Side::A) == a
        && disk.bytes(Side::B) == b
        && disk.moment() == moment
        && disk.faults() == faults
}

const LISTED: &[Taken] = &[
    (Step::Put(Side::A, 1, b"xyz"), Ok(0)),
    (Step::Put(Side::A, 0, b"q"), Err(DiskFailed)),
    (Step::Len(Side::A), Ok(4)),
    (Step::Len(Side::A), Err(DiskFailed)),
    (Step::Read(Side::A, 1), Err(DiskFailed)),
    (Step::Read(Side::A, 1), Ok(3)),
    (Step::Cut(Side::A, 1), Err(DiskFailed)),
    (Step::Sync(Side::A), Err(DiskFailed)),
    (Step::Sync(Side::A), Ok(0)),
];

#[test]
fn a_listed_call_fails_and_does_nothing(rt: HostRuntime) -> Result<(), Fail> {
    let mut disk = mem_disk(rt.alloc(), b"abc", 9, 9, &[1, 3, 4, 6, 7])?;
    assert!(rt; takes(&mut disk, LISTED));
    assert!(rt; holds(&disk, b"axyz", b"", 9, 5));
    Ok(())
}

const PAST_THE_ROOM: &[Taken] = &[
    (Step::Put(Side::B, 0, b"ab"), Ok(0)),
    (Step::Put(Side::B, 2, b"cd"), Err(DiskFailed)),
    (Step::Put(Side::B, 2, b"c"), Ok(0)),
    (Step::Put(Side::A, 0, b"d"), Err(DiskFailed)),
    (Step::Sync(Side::B), Ok(0)),
    (Step::Sync(Side::B), Err(DiskFailed)),
    (Step::Len(Side::B), Err(DiskFailed)),
];

#[test]
fn a_call_past_the_room_fails(rt: HostRuntime) -> Result<(), Fail> {
    let mut disk = mem_disk(rt.alloc(), b"", 5, 3, &[])?;
    assert!(rt; takes(&mut disk, PAST_THE_ROOM));
    assert!(rt; holds(&disk, b"", b"abc", 7, 4));
    Ok(())
}

// A disk on which these calls were made.
fn after(alloc: Global, a: &[u8], failing: &[u64], steps: &[Step]) -> Result<Box<MemDisk>, Fail> {
    let mut disk = mem_disk(alloc, a, 20, 40, failing)?;
    for step in steps {
        let _ = take_step(&mut disk, *step);
    }
    Ok(disk)
}

// A crash after so many calls, which keeps so many unsynced bytes and turns all others into this byte; and the bytes
// of both sides then.
type Image = (u64, u64, u8, &'static [u8], &'static [u8]);

fn leaves(alloc: Global, disk: &MemDisk, image: Image) -> Result<bool, Fail> {
    let (moment, kept, fill, a, b) = image;
    if moment > disk.moment() {
        return Ok(false);
    }
    let left = disk.image(alloc, moment, kept, fill)?;
    Ok(holds(&left, a, b, 0, 0))
}

const CALLS: &[Step] = &[
    Step::Put(Side::A, 2, b"XY"),
    Step::Sync(Side::A),
    Step::Put(Side::A, 6, b"12345678"),
    Step::Cut(Side::A, 10),
    Step::Put(Side::B, 0, b"zz"),
    Step::Len(Side::A),
];

const WHOLE: u64 = 1 << 62;

const IMAGES: &[Image] = &[
    (0, 0, 0xff, b"abcdef", b""),
    (0, WHOLE, 0, b"abcdef", b""),
    (1, 0, 0xff, b"ab\xff\xffef", b""),
    (1, 1, 1, b"abX\x01ef", b""),
    (1, 30, 1, b"abXYef", b""),
    (2, 0, 0xff, b"abXYef", b""),
    (2, 1, 0, b"abXYef", b""),
    (3, 0, 0, b"abXYef\0\0\0\0\0\0\0\0", b""),
    (3, 1, 1, b"abXYef1\x01\x01\x01\x01\x01\x01\x01", b""),
    (3, WHOLE, 1, b"abXYef12345678", b""),
    (4, 0, 0xff, b"abXYef\xff\xff\xff\xff", b""),
    (4, 1, 0, b"abXYef1\0\0\0", b""),
    (4, 30, 0, b"abXYef1234", b""),
    (5, 0, 1, b"abXYef\x01\x01\x01\x01", b"\x01\x01"),
    (5, 9, 0, b"abXYef1234", b"z\0"),
    (6, 9, 0, b"abXYef1234", b"z\0"),
    (6, WHOLE, 0xff, b"abXYef1234", b"zz"),
];

#[test]
fn an_image_keeps_the_first_unsynced_bytes(rt: HostRuntime) -> Result<(), Fail> {
    let disk = after(rt.alloc(), b"abcdef", &[5], CALLS)?;
    for image in IMAGES {
        assert!(rt; leaves(rt.alloc(), &disk, *image)?, "{image:?}");
    }
    Ok(())
}

const OVER: &[Step] = &[
    Step::Put(Side::A, 0, b"abcd"),
    Step::Put(Side::A, 2, b"XYZ"),
];

#[test]
fn a_later_unsynced_write_covers_an_earlier_one(rt: HostRuntime) -> Result<(), Fail> {
    let disk = after(rt.alloc(), b"", &[], OVER)?;
    assert!(rt; disk.moment() == 2);
    assert!(rt; leaves(rt.alloc(), &disk, (2, 5, b'.', b"abX..", b""))?);
    Ok(())
}
