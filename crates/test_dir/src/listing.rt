// The nodes that a directory lists, worked by hand.
use crate::landing::{LOW, NEAR, PAIR, batch_of, land, new_store};
use jf_path::{LiveList, NibblePath, NodeName, PlainNode};
use std::alloc::Global;
use std::test::Fail;
use std::thread::Threads;

// A node: of no entry, of the first byte of a key and the byte that is its value, or with nodes below it.
#[derive(Clone, Copy, PartialEq, Eq)]
enum Kind {
    Null,
    Leaf(u8, u8),
    Inner,
}

// The version of a name; the number of nibbles of its path, and two of them in a byte, zero if there is none; the node;
// and the version since which it is stale.
type Listed = (u64, (u8, u8), Kind, u64);

const CURRENT: u64 = u64::MAX;

// What is listed after two keys are put that part at their second nibble.
const AFTER_PAIR: &[Listed] = &[
    (0, (0, 0x00), Kind::Null, 1),
    (1, (0, 0x00), Kind::Inner, CURRENT),
    (1, (1, 0x10), Kind::Inner, CURRENT),
    (1, (2, 0x1a), Kind::Leaf(LOW, b'a'), CURRENT),
    (1, (2, 0x1f), Kind::Leaf(NEAR, b'b'), CURRENT),
];

// The number of nibbles of a path, and the first two.
fn front_of(path: &NibblePath) -> (u8, u8) {
    let mut bytes = [0; 33];
    path.to_bytes(&mut bytes);
    (bytes[0], bytes[1])
}

fn kind_of(node: &PlainNode) -> Kind {
    match node {
        PlainNode::Null => Kind::Null,
        PlainNode::Leaf { key, value } => {
            Kind::Leaf(key[0], value.as_slice().first().copied().unwrap_or(0))
        }
        PlainNode::Inner { .. } => Kind::Inner,
    }
}

fn is_listed(node: &(NodeName, PlainNode, u64), listed: &Listed) -> bool {
    node.0.version == listed.0
        && front_of(&node.0.path) == listed.1
        && kind_of(&node.1) == listed.2
        && node.2 == listed.3
}

// Whether these nodes are listed, in this order.
fn are_listed(nodes: &[(NodeName, PlainNode, u64)], wanted: &[Listed]) -> bool {
    for (node, live_list) in nodes.iter().zip(wanted) {
        if !is_listed(node, live_list) {
            return false;
        }
    }
    nodes.len() == wanted.len()
}

// What is listed after the pair is put.
fn live_list<H: Threads + Sync>(rt: &H, alloc: Global) -> Result<Box<LiveList>, Fail> {
    let mut directory = new_store(alloc)?;
    let batch = batch_of(alloc, PAIR)?;
    land(rt, alloc, &mut directory, &batch, 1)?;
    let nodes = directory.live(alloc)?;
    Ok(Box::new(alloc, nodes)?)
}

#[test]
fn nodes_are_listed_by_name(rt: HostRuntime) -> Result<(), Fail> {
    let nodes = live_list(&rt, rt.alloc())?;
    assert!(rt; are_listed(nodes.as_slice(), AFTER_PAIR));
    Ok(())
}
