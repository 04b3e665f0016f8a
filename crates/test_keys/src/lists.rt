// Lists keep what is added to them, in order.
use crate::paths::name;
use jf_path::{
    Bytes, Child, Children, FreshList, HashList, LiveList, Memory, NameList, Nibble, Pairs,
    PlainNode,
};
use std::alloc::Global;
use std::test::Fail;

fn three_bytes(alloc: Global) -> Result<Bytes, Memory> {
    let mut bytes = Bytes::with_capacity(alloc, 3)?;
    bytes.append(b"ab")?;
    bytes.push(b'c')?;
    Ok(bytes)
}

#[test]
fn bytes_take_room_and_fill_it(rt: HostRuntime) -> Result<(), Fail> {
    assert!(rt; three_bytes(rt.alloc())?.as_slice() == b"abc".as_slice());
    Ok(())
}

fn children_of_one(alloc: Global) -> Result<Children, Memory> {
    let mut children = Children::new(alloc);
    if let Some(nibble) = Nibble::new(11) {
        children.push(Child {
            nibble,
            version: 4,
            hash: [1; 32],
            leaf: true,
            count: 0,
        })?;
    }
    Ok(children)
}

fn has_child_at_11(children: &Children) -> bool {
    children.len() == 1 && children.as_slice().first().map(|c| c.nibble.get()) == Some(11)
}

fn fresh_of_one(alloc: Global, children: Children) -> Result<FreshList, Memory> {
    let mut fresh = FreshList::new(alloc);
    fresh.push((name(4, &[]), PlainNode::Inner { children }))?;
    Ok(fresh)
}

#[test]
fn a_node_to_write_has_its_children(rt: HostRuntime) -> Result<(), Fail> {
    let children = children_of_one(rt.alloc())?;
    assert!(rt; has_child_at_11(&children));
    let fresh = fresh_of_one(rt.alloc(), children)?;
    assert!(rt; (fresh.len(), fresh.as_slice().len()) == (1, 1));
    Ok(())
}

fn names_of_one(alloc: Global) -> Result<NameList, Memory> {
    let mut names = NameList::new(alloc);
    names.push(name(9, &[1, 2]))?;
    Ok(names)
}

fn has_name(names: &NameList) -> bool {
    names.len() == 1 && names.as_slice() == [name(9, &[1, 2])].as_slice()
}

#[test]
fn a_list_of_names_has_what_was_added(rt: HostRuntime) -> Result<(), Fail> {
    assert!(rt; has_name(&names_of_one(rt.alloc())?));
    Ok(())
}

fn leaf(alloc: Global, value: &[u8]) -> Result<PlainNode, Memory> {
    Ok(PlainNode::Leaf {
        key: [7; 32],
        value: Bytes::copy_of(alloc, value)?,
    })
}

fn live_of_two(alloc: Global) -> Result<LiveList, Memory> {
    let mut live = LiveList::new(alloc);
    live.push((name(2, &[]), PlainNode::Null, 5))?;
    live.push((name(1, &[]), leaf(alloc, b"v")?, u64::MAX))?;
    Ok(live)
}

// The versions that wrote two nodes, and those since which they are stale.
const LIVE: &[(u64, u64)] = &[(2, 5), (1, u64::MAX)];

fn has_live_nodes(live: &LiveList) -> bool {
    for ((name, _node, since), expected) in live.as_slice().iter().zip(LIVE) {
        if (name.version, *since) != *expected {
            return false;
        }
    }
    live.len() == 2
}

#[test]
fn live_nodes_stand_in_the_order_in_which_they_were_added(rt: HostRuntime) -> Result<(), Fail> {
    assert!(rt; has_live_nodes(&live_of_two(rt.alloc())?));
    Ok(())
}

fn hashes_of_two(alloc: Global) -> Result<HashList, Memory> {
    let mut hashes = HashList::new(alloc);
    hashes.push([2; 32])?;
    hashes.push([1; 32])?;
    Ok(hashes)
}

fn has_hashes(hashes: &HashList) -> bool {
    hashes.len() == 2 && hashes.as_slice() == [[2; 32], [1; 32]].as_slice()
}

#[test]
fn hashes_stand_in_the_order_in_which_they_were_added(rt: HostRuntime) -> Result<(), Fail> {
    assert!(rt; has_hashes(&hashes_of_two(rt.alloc())?));
    Ok(())
}

fn pairs_of_one(alloc: Global) -> Result<Pairs, Memory> {
    let mut pairs = Pairs::new(alloc);
    pairs.push(([3; 32], Bytes::copy_of(alloc, b"w")?))?;
    Ok(pairs)
}

fn has_pair(pairs: &Pairs) -> bool {
    for (key, value) in pairs.as_slice() {
        if *key != [3; 32] || value.as_slice() != b"w".as_slice() {
            return false;
        }
    }
    pairs.len() == 1
}

#[test]
fn a_list_of_pairs_has_what_was_added(rt: HostRuntime) -> Result<(), Fail> {
    assert!(rt; has_pair(&pairs_of_one(rt.alloc())?));
    Ok(())
}
