// Names and nodes as worked bytes, and a table of each refusal.
use jf_codec::{CodecFault, decode_name, decode_node, decode_whole, encode_name, encode_node};
use jf_path::{Bytes, Child, Memory, Nibble, NibblePath, NodeName, PlainNode};
use std::alloc::Global;
use std::test::Fail;

const KEY: &[u8] = &[0x11; 32];

const HASH: &[u8] = &[0x33; 32];

const OTHER: &[u8] = &[0x44; 32];

const ONE: &[u8] = &[0, 0, 0, 0, 0, 0, 0, 1];

const TWO: &[u8] = &[0, 0, 0, 0, 0, 0, 0, 2];

// The bytes of these parts, one after another.
fn parts_in_a_row(alloc: Global, parts: &[&[u8]]) -> Result<Bytes, Memory> {
    let mut bytes = Bytes::new(alloc);
    for part in parts {
        bytes.append(part)?;
    }
    Ok(bytes)
}

fn name(version: u64, nibbles: &[u8]) -> NodeName {
    let mut path = NibblePath::empty();
    for n in nibbles {
        if path.len() < 64
            && let Some(nibble) = Nibble::new(*n)
        {
            path.push(nibble);
        }
    }
    NodeName { version, path }
}

// The bytes of the name below.
const FIVE: [u8; 11] = [0, 0, 0, 0, 0, 0, 0, 5, 3, 0xab, 0xc0];

fn five() -> NodeName {
    name(5, &[0xa, 0xb, 0xc])
}

// Whether the name is written as these bytes, after others.
fn is_written(alloc: Global) -> Result<bool, Fail> {
    let mut out = Bytes::copy_of(alloc, b"before")?;
    encode_name(alloc, &five(), &mut out)?;
    let want = parts_in_a_row(alloc, &[b"before", &FIVE])?;
    Ok(out.as_slice() == want.as_slice())
}

fn is_read(bytes: &[u8]) -> bool {
    decode_name(bytes) == Ok((five(), 11))
}

#[test]
fn a_name_is_its_version_and_its_path(rt: HostRuntime) -> Result<(), Fail> {
    assert!(rt; is_written(rt.alloc())?);
    assert!(rt; is_read(&FIVE));
    assert!(rt; is_read(&[0, 0, 0, 0, 0, 0, 0, 5, 3, 0xab, 0xc0, 0xff]));
    Ok(())
}

const NO_NAMES: &[(&[u8], CodecFault)] = &[
    (&[], CodecFault::Short),
    (&[0; 7], CodecFault::Short),
    (&[0; 8], CodecFault::Short),
    (&[0, 0, 0, 0, 0, 0, 0, 0, 65], CodecFault::Path),
    (&[0, 0, 0, 0, 0, 0, 0, 0, 3, 0xab], CodecFault::Short),
    (&[0, 0, 0, 0, 0, 0, 0, 0, 3, 0xab, 0xc1], CodecFault::Path),
    (&[0, 0, 0, 0, 0, 0, 0, 0, 3, 0xa1], CodecFault::Short),
    (&[0, 0, 0, 0, 0, 0, 0, 0, 1, 0x01], CodecFault::Path),
];

fn is_no_name(bytes: &[u8], fault: CodecFault) -> bool {
    decode_name(bytes) == Err(fault)
}

#[test]
fn bytes_of_no_name_are_refused(rt: HostRuntime) {
    for (bytes, fault) in NO_NAMES {
        assert!(rt; is_no_name(bytes, *fault), "{bytes:?}");
    }
}

// Whether the bytes are a node that is written as them again, after others, and read from them before one byte more.
fn goes_there_and_back(alloc: Global, parts: &[&[u8]]) -> Result<bool, Fail> {
    let bytes = parts_in_a_row(alloc, parts)?;
    Ok(is_written_again(alloc, &bytes)? && is_read_in_front(alloc, &bytes)?)
}

fn is_written_again(alloc: Global, bytes: &Bytes) -> Result<bool, Fail> {
    let Ok(node) = decode_whole(alloc, bytes.as_slice()) else {
        return Ok(false);
    };
    let mut out = Bytes::copy_of(alloc, b"before")?;
    encode_node(alloc, &node, &mut out)?;
    let want = parts_in_a_row(alloc, &[b"before", bytes.as_slice()])?;
    Ok(out.as_slice() == want.as_slice())
}

fn is_read_in_front(alloc: Global, bytes: &Bytes) -> Result<bool, Fail> {
    let longer = parts_in_a_row(alloc, &[bytes.as_slice(), &[9]])?;
    match decode_node(alloc, longer.as_slice()) {
        Ok((_node, taken)) => Ok(taken as u64 == bytes.len()),
        Err(_) => Ok(false),
    }
}

const NODES: &[&[&[u8]]] = &[
    &[&[0]],
    &[&[1], KEY, &[0, 0, 0, 3], b"abc"],
    &[&[2, 4, 2, 4, 0], TWO, HASH, ONE, OTHER],
    &[&[3, 4, 2, 4, 0], ONE, TWO, HASH, TWO, ONE, OTHER],
];

#[test]
fn nodes_go_there_and_back(rt: HostRuntime) -> Result<(), Fail> {
    for parts in NODES {
        assert!(rt; goes_there_and_back(rt.alloc(), parts)?, "{parts:?}");
    }
    Ok(())
}

fn is_child(child: &Child, nibble: u8, version: u64, count: u64, leaf: bool) -> bool {
    child.nibble.get() == nibble
        && child.version == version
        && child.count == count
        && child.leaf == leaf
}

fn has_both_children(node: &PlainNode) -> bool {
    match node {
        PlainNode::Inner { children } => match children.as_slice() {
            [first, last] => is_child(first, 1, 1, 2, false) && is_child(last, 10, 2, 1, true),
            _ => false,
        },
        _ => false,
    }
}

#[test]
fn children_are_read_at_their_nibbles(rt: HostRuntime) -> Result<(), Fail> {
    let bytes = parts_in_a_row(
        rt.alloc(),
        &[&[3, 4, 2, 4, 0], ONE, TWO, HASH, TWO, ONE, OTHER],
    )?;
    let node = decode_whole(rt.alloc(), bytes.as_slice())?;
    assert!(rt; has_both_children(&node));
    Ok(())
}

const NO_NODES: &[(&[&[u8]], CodecFault)] = &[
    (&[], CodecFault::Short),
    (&[&[4]], CodecFault::Tag),
    (&[&[255]], CodecFault::Tag),
    (&[&[0, 0]], CodecFault::Rest),
    (&[&[1], &[0; 31]], CodecFault::Short),
    (&[&[1], KEY, &[0, 0, 0]], CodecFault::Short),
    (&[&[1], KEY, &[0, 0, 0x10, 1]], CodecFault::Length),
    (&[&[1], KEY, &[0, 0, 0, 3], b"ab"], CodecFault::Short),
    (&[&[2, 0, 1, 0]], CodecFault::Short),
    (&[&[2, 0, 0, 0, 0]], CodecFault::Bitmap),
    (&[&[2, 0, 3, 0, 4]], CodecFault::Bitmap),
    (&[&[2, 0, 4, 0, 4]], CodecFault::Bitmap),
    (&[&[3, 0x80, 0, 0x80, 0]], CodecFault::Bitmap),
    (&[&[2, 0, 4, 0, 0], ONE, HASH, &[0]], CodecFault::Rest),
    (&[&[2, 0, 4, 0, 0], ONE, &[0; 31]], CodecFault::Short),
    (&[&[3, 0, 4, 0, 0], ONE, &[0; 8]], CodecFault::Count),
    (&[&[3, 0, 4, 0, 0], ONE, ONE], CodecFault::Count),
    (&[&[3, 0, 6, 0, 2], ONE, TWO], CodecFault::Count),
    (&[&[3, 0, 4, 0, 0], ONE, &[0; 7]], CodecFault::Short),
    (&[&[3, 0, 4, 0, 0], ONE, TWO], CodecFault::Short),
];

fn is_no_node(alloc: Global, parts: &[&[u8]], fault: CodecFault) -> Result<bool, Fail> {
    let bytes = parts_in_a_row(alloc, parts)?;
    Ok(decode_whole(alloc, bytes.as_slice()).err() == Some(fault))
}

#[test]
fn bytes_of_no_node_are_refused(rt: HostRuntime) -> Result<(), Fail> {
    for (parts, fault) in NO_NODES {
        assert!(rt; is_no_node(rt.alloc(), parts, *fault)?, "{parts:?}");
    }
    Ok(())
}
