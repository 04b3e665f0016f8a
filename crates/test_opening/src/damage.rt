// One file of which some bytes are others, or which ends too early: where damage is reported, and that a refused opening
// changes no byte. All places are worked out from the layout in docs/FORMATS.md: they are the offsets of gates.
use crate::openings::{
    Change, FIRST_LANDING, Files, LANDED, LANDED_TWICE, changed_file, is_damaged, opened_run,
};
use jf_disk::Side;
use jf_play::play::has_ended;
use jf_play::roots::with_roots;
use jf_run::status::Status;
use std::alloc::Global;
use std::sync::Wait;
use std::test::Fail;
use std::thread::Threads;

// What an opening finds: damage at this offset of side A, or a head of this version and root.
#[derive(Clone, Copy)]
enum Found {
    Damage(u64),
    Head(u64, &'static str),
}

// A new store, and its version 1.
const EMPTY: Found = Found::Head(0, "0 ok root E\n");

const ONE: Found = Found::Head(1, "0 ok root R\n");

const TWO: Found = Found::Head(2, "0 ok root R\n");

// How many bytes are kept of a file with two landings, which are changed, and what is found. The gates are at 0, 100, 222 and
// 344.
const TWICE: &[(usize, &[Change], Found)] = &[
    (345, &[], TWO),
    // The gate of the second landing is closed, and other bytes after it change nothing.
    (345, &[(222, 0x00)], ONE),
    (345, &[(222, 0x5a), (223, 0x07)], ONE),
    // Its kind, the lengths of its payload, its version, its root, the version of its node, and the name that is stale.
    (345, &[(223, 0x07)], Found::Damage(222)),
    (345, &[(224, 0x80)], Found::Damage(222)),
    (345, &[(231, 0x6f)], Found::Damage(222)),
    (345, &[(239, 0x01)], Found::Damage(222)),
    (345, &[(240, 0x00)], Found::Damage(222)),
    (345, &[(287, 0x01)], Found::Damage(222)),
    (345, &[(342, 0x00)], Found::Damage(222)),
    // The gate after the last record.
    (345, &[(344, 0x01)], Found::Damage(344)),
    (345, &[(344, 0xff)], TWO),
    // The file ends in the second landing.
    (344, &[], Found::Damage(222)),
    (300, &[], Found::Damage(222)),
    (300, &[(222, 0x00)], ONE),
    (300, &[(222, 0x5a)], ONE),
    (224, &[], Found::Damage(222)),
    (223, &[], Found::Damage(222)),
    (223, &[(222, 0x00)], ONE),
    // Of two places the first is reported; gates and lengths come before what records say.
    (345, &[(101, 0x07), (239, 0x01)], Found::Damage(100)),
    (345, &[(101, 0x07), (344, 0x01)], Found::Damage(344)),
];

// Bytes that are changed in a file with one landing, and what is found. The gates are at 0, 100 and 222.
const ONCE: &[(&[Change], Found)] = &[
    (&[], ONE),
    (&[(0, 0x00)], EMPTY),
    (&[(0, 0x5a)], EMPTY),
    (&[(100, 0x00)], EMPTY),
    (&[(100, 0x5a)], EMPTY),
    // The kind of the checkpoint, the length of its payload, and its generation: any above 0 will do.
    (&[(1, 0x07)], Found::Damage(0)),
    (&[(1, 0x01)], Found::Damage(0)),
    (&[(9, 0x5b)], Found::Damage(0)),
    (&[(9, 0x59)], Found::Damage(0)),
    (&[(17, 0x02)], ONE),
    (&[(17, 0x00)], Found::Damage(0)),
    // Its floor and its head, the root, the tag of its node, and the version since which the node is stale.
    (&[(33, 0x01)], Found::Damage(0)),
    (&[(41, 0x01)], Found::Damage(0)),
    (&[(42, 0x6f)], Found::Damage(0)),
    (&[(91, 0x04)], Found::Damage(0)),
    (&[(99, 0xfe)], Found::Damage(0)),
    // The kind of the landing, the length of its payload, and its version.
    (&[(101, 0x07)], Found::Damage(100)),
    (&[(101, 0x01)], Found::Damage(100)),
    (&[(109, 0x71)], Found::Damage(100)),
    (&[(109, 0x6f)], Found::Damage(100)),
    (&[(117, 0x02)], Found::Damage(100)),
    // Its root, the tag of its node, the key, and the value.
    (&[(118, 0x9a)], Found::Damage(100)),
    (&[(167, 0x07)], Found::Damage(100)),
    (&[(168, 0x18)], Found::Damage(100)),
    (&[(204, 0x32)], Found::Damage(100)),
    // How many names are stale, and the last byte of the one.
    (&[(212, 0x00)], Found::Damage(100)),
    (&[(221, 0x01)], Found::Damage(100)),
    (&[(222, 0x01)], Found::Damage(222)),
    (&[(222, 0x5a)], ONE),
];

// A file on side A; on side B is no record, but bytes after a closed gate.
fn on_a(alloc: Global, a: Vec<u8>) -> Result<Files, Fail> {
    let b = b"\x00\x5a".to_vec(alloc)?;
    Ok(Files { a, b })
}

// Whether files have this head, and the root of it is reported.
fn has_head<H: Threads + Wait + Sync>(
    rt: &H,
    alloc: Global,
    files: &Files,
    head: u64,
    told: &str,
) -> Result<bool, Fail> {
    let told = with_roots(alloc, told)?;
    let played = opened_run(rt, alloc, files, b"root head", &[])?;
    Ok(has_ended(&played, Status::Done, Some(head), &told))
}

// Whether this is found in side A.
fn is_found<H: Threads + Wait + Sync>(
    rt: &H,
    alloc: Global,
    a: Vec<u8>,
    found: Found,
) -> Result<bool, Fail> {
    let files = on_a(alloc, a)?;
    match found {
        Found::Damage(offset) => is_damaged(rt, alloc, &files, Side::A, offset),
        Found::Head(head, told) => has_head(rt, alloc, &files, head, told),
    }
}

#[test]
fn damage_is_told_at_its_gate(rt: HostRuntime) -> Result<(), Fail> {
    let alloc = rt.alloc();
    for (len, changes, found) in TWICE {
        let file = changed_file(alloc, LANDED_TWICE, *len, changes)?;
        assert!(rt;
            is_found(&rt, alloc, file, *found)?,
            "of {len} bytes with {changes:?}"
        );
    }
    Ok(())
}

#[test]
fn a_changed_byte_is_damage_if_the_file_says_something_else(rt: HostRuntime) -> Result<(), Fail> {
    let alloc = rt.alloc();
    for (changes, found) in ONCE {
        let file = changed_file(alloc, LANDED, 223, changes)?;
        assert!(rt; is_found(&rt, alloc, file, *found)?, "with {changes:?}");
    }
    Ok(())
}

// What is found in the first `len` bytes of a file with one landing: without a byte after its first gate no record is there,
// and the gate of a record that isn't whole is damage.
fn found_in_front(len: usize) -> Found {
    match len {
        0 | 1 => EMPTY,
        2..=100 => Found::Damage(0),
        101..=222 => Found::Damage(FIRST_LANDING),
        _ => ONE,
    }
}

#[test]
fn a_file_that_ends_too_early_is_damage(rt: HostRuntime) -> Result<(), Fail> {
    let alloc = rt.alloc();
    for len in 0..=223 {
        let file = changed_file(alloc, LANDED, len, &[])?;
        assert!(rt;
            is_found(&rt, alloc, file, found_in_front(len))?,
            "of {len} bytes"
        );
    }
    Ok(())
}

// What is found in the first `len` bytes of it if the gate of the landing is closed.
fn found_without_landing(len: usize) -> Found {
    match len {
        0..=100 => found_in_front(len),
        _ => EMPTY,
    }
}

// Whether this is found in the first `len` bytes of the file if the gate of its landing is this byte.
fn is_found_under<H: Threads + Wait + Sync>(
    rt: &H,
    alloc: Global,
    gate: u8,
    len: usize,
) -> Result<bool, Fail> {
    let file = changed_file(alloc, LANDED, len, &[(100, gate)])?;
    is_found(rt, alloc, file, found_without_landing(len))
}

#[test]
fn a_landing_cut_short_under_a_closed_gate_is_none(rt: HostRuntime) -> Result<(), Fail> {
    let alloc = rt.alloc();
    for len in 0..=223 {
        let is_none = is_found_under(&rt, alloc, 0x00, len)?
            && is_found_under(&rt, alloc, 0x5a, len)?;
        assert!(rt; is_none, "of {len} bytes");
    }
    Ok(())
}
