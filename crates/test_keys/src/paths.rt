// Keys, nibbles, paths and names by their bytes and their order.
use jf_path::{Key, Nibble, NibblePath, NodeName, PathFault, common_bits, nibble};
use std::cmp::Ordering;

// The path of these nibbles, up to 64 of them.
pub fn path(nibbles: &[u8]) -> NibblePath {
    let mut path = NibblePath::empty();
    for n in nibbles {
        if path.len() < 64
            && let Some(nibble) = Nibble::new(*n)
        {
            path.push(nibble);
        }
    }
    path
}

pub fn name(version: u64, nibbles: &[u8]) -> NodeName {
    NodeName {
        version,
        path: path(nibbles),
    }
}

fn is_nibble_below_16(n: u8) -> bool {
    Nibble::new(n).map(|m| m.get()) == if n < 16 { Some(n) } else { None }
}

fn nibbles_have_an_order() -> bool {
    Nibble::new(9) < Nibble::new(10) && Nibble::new(15) == Nibble::new(15)
}

#[test]
fn nibbles_are_0_to_15_in_their_order(rt: HostRuntime) {
    for n in 0..=255 {
        assert!(rt; is_nibble_below_16(n), "{n}");
    }
    assert!(rt; nibbles_have_an_order());
}

// Places of nibbles, and the nibbles there, of a key that begins with ab c0, goes on with zeros and ends with 5f.
const NIBBLES: &[(usize, u8)] = &[
    (0, 0xa),
    (1, 0xb),
    (2, 0xc),
    (3, 0),
    (61, 0),
    (62, 5),
    (63, 0xf),
];

fn marked_key() -> Key {
    let mut key = [0; 32];
    key[0] = 0xab;
    key[1] = 0xc0;
    key[31] = 0x5f;
    key
}

fn has_nibble(key: &Key, i: usize, n: u8) -> bool {
    let path = NibblePath::of_key(key);
    path.len() == 64 && i < 64 && path.at(i).get() == n && nibble(key, i).get() == n
}

#[test]
fn nibbles_of_a_key_begin_with_the_high_half_of_its_first_byte(rt: HostRuntime) {
    let key = marked_key();
    for (i, n) in NIBBLES {
        assert!(rt; has_nibble(&key, *i, *n), "{i}");
    }
}

// A byte of a key, the bits that are changed in it, and the number of bits before the first that differs.
const COMMON: &[(usize, u8, u64)] = &[
    (0, 0x80, 0),
    (0, 0x01, 7),
    (1, 0x80, 8),
    (1, 0x13, 11),
    (31, 0x02, 254),
    (31, 0x01, 255),
    (31, 0x00, 256),
];

fn agree_in(at: usize, mask: u8, common: u64) -> bool {
    let key = [0x5a; 32];
    let mut other = key;
    match other.get_mut(at) {
        Some(byte) => *byte ^= mask,
        None => return false,
    }
    common_bits(&key, &other) == common
}

#[test]
fn common_bits_end_at_the_first_that_differs(rt: HostRuntime) {
    for (at, mask, common) in COMMON {
        assert!(rt; agree_in(*at, *mask, *common), "{at} {mask}");
    }
}

// Paths and their bytes.
const WRITTEN: &[(&[u8], &[u8])] = &[
    (&[], &[0]),
    (&[0xa], &[1, 0xa0]),
    (&[0xa, 0xb], &[2, 0xab]),
    (&[0xa, 0xb, 0xc], &[3, 0xab, 0xc0]),
    (
        &[9; 63],
        &[
            63, 0x99, 0x99, 0x99, 0x99, 0x99, 0x99, 0x99, 0x99, 0x99, 0x99, 0x99, 0x99, 0x99, 0x99,
            0x99, 0x99, 0x99, 0x99, 0x99, 0x99, 0x99, 0x99, 0x99, 0x99, 0x99, 0x99, 0x99, 0x99,
            0x99, 0x99, 0x99, 0x90,
        ],
    ),
    (
        &[9; 64],
        &[
            64, 0x99, 0x99, 0x99, 0x99, 0x99, 0x99, 0x99, 0x99, 0x99, 0x99, 0x99, 0x99, 0x99, 0x99,
            0x99, 0x99, 0x99, 0x99, 0x99, 0x99, 0x99, 0x99, 0x99, 0x99, 0x99, 0x99, 0x99, 0x99,
            0x99, 0x99, 0x99, 0x99,
        ],
    ),
];

// Whether just these bytes are written.
fn is_written(path: &NibblePath, bytes: &[u8]) -> bool {
    let mut out = [0xee; 33];
    let count = path.to_bytes(&mut out);
    out.get(..count) == Some(bytes) && out.iter().skip(count).all(|b| *b == 0xee)
}

fn is_written_and_read(nibbles: &[u8], bytes: &[u8]) -> bool {
    let path = path(nibbles);
    is_written(&path, bytes) && NibblePath::from_bytes(bytes) == Ok(path)
}

#[test]
fn paths_have_a_count_and_two_nibbles_a_byte(rt: HostRuntime) {
    for (nibbles, bytes) in WRITTEN {
        assert!(rt; is_written_and_read(nibbles, bytes), "{nibbles:?}");
    }
}

const REFUSED: &[(&[u8], PathFault)] = &[
    (&[], PathFault::Length),
    (&[0, 0], PathFault::Length),
    (&[1], PathFault::Length),
    (&[3, 0xab], PathFault::Length),
    (&[3, 0xab, 0xc0, 0], PathFault::Length),
    (&[65; 34], PathFault::Length),
    (&[255; 129], PathFault::Length),
    (&[1, 0xa1], PathFault::Padding),
    (&[3, 0xab, 0xcd], PathFault::Padding),
    (&[3, 0xab, 0xc8, 0], PathFault::Length),
];

fn is_refused(bytes: &[u8], fault: PathFault) -> bool {
    NibblePath::from_bytes(bytes) == Err(fault)
}

#[test]
fn bytes_of_no_path_are_refused(rt: HostRuntime) {
    for (bytes, fault) in REFUSED {
        assert!(rt; is_refused(bytes, *fault), "{bytes:?}");
    }
}

const RISING_PATHS: &[&[u8]] = &[
    &[],
    &[0],
    &[0, 0],
    &[0, 15],
    &[1],
    &[1, 0, 0, 0],
    &[1, 2],
    &[15],
];

fn are_paths_in_order(a: &NibblePath, b: &NibblePath, order: Ordering) -> bool {
    a.cmp(b) == order && (a == b) == order.is_eq()
}

// Whether a path stands at this place among the paths that ascend.
fn is_path_at(i: usize, a: &NibblePath) -> bool {
    for (j, b) in RISING_PATHS.iter().enumerate() {
        if !are_paths_in_order(a, &path(b), i.cmp(&j)) {
            return false;
        }
    }
    true
}

#[test]
fn paths_stand_in_the_order_of_lists(rt: HostRuntime) {
    for (i, nibbles) in RISING_PATHS.iter().enumerate() {
        assert!(rt; is_path_at(i, &path(nibbles)), "{i}");
    }
}

// Paths, paths with which they may begin, and whether they do.
const FRONTS: &[(&[u8], &[u8], bool)] = &[
    (&[], &[], true),
    (&[0], &[], true),
    (&[0, 0], &[0], true),
    (&[0], &[0, 0], false),
    (&[1, 0, 0, 0], &[1], true),
    (&[1, 2], &[1, 0], false),
    (&[15], &[15], true),
];

fn begins_with(whole: &[u8], front: &[u8]) -> bool {
    path(whole).starts_with(&path(front))
}

#[test]
fn a_path_starts_with_each_list_that_it_goes_through(rt: HostRuntime) {
    for (whole, front, starts) in FRONTS {
        assert!(rt; begins_with(whole, front) == *starts, "{whole:?}");
    }
}

const RISING_NAMES: &[(u64, &[u8])] = &[
    (0, &[]),
    (0, &[15, 15]),
    (1, &[]),
    (1, &[0]),
    (1, &[1]),
    (u64::MAX, &[]),
];

// Whether a name stands at this place among the names that ascend.
fn is_name_at(i: usize, a: &NodeName) -> bool {
    for (j, (version, nibbles)) in RISING_NAMES.iter().enumerate() {
        if a.cmp(&name(*version, nibbles)) != i.cmp(&j) {
            return false;
        }
    }
    true
}

#[test]
fn names_stand_by_version_and_then_by_path(rt: HostRuntime) {
    for (i, (version, nibbles)) in RISING_NAMES.iter().enumerate() {
        assert!(rt; is_name_at(i, &name(*version, nibbles)), "{i}");
    }
}
