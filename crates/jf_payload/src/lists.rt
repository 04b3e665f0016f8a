// A list is the number of its items and then the items; in lists of names or nodes the names rise strictly.
ghost use Rattle.std.specs.Prelude.{◌≡◌, ◌*◌, ◌<◌, ◌≤◌, ℕ, [], length};
ghost use Rattle.jf_path.specs.Names.{are_rising};
ghost use Rattle.jf_payload.specs.Reading.{Gives, many_at, named_at, hash_at, fresh_at, live_at, any_hashes, fresh_rise, live_rise, fresh_list_at, name_list_at, live_list_at};

use crate::fault::RecordFault;
use crate::fields::{hash_of, name_of, node_of, number_of};
use crate::order::{push_fresh, push_live, push_name};
use jf_codec::Format;
use jf_path::{FreshList, HashList, LiveList, NameList, NodeName, PlainNode};
use std::alloc::Global;

/// For how many items room is taken: `count`, but no more than these bytes can have, of which an item takes `least` or more.
/// So a list isn't moved as it grows, and a count that is wrong takes no more room than the bytes allow.
pub fn room_for(count: u64, least: usize, bytes: &[u8]) -> u64
    // An item takes a byte or more.
    requires { 0 < least }
    // The result is at most the count.
    ensures count { result ≤ count }
    // So many items, of `least` bytes each, have at most as many bytes as there are.
    ensures bounded { result * least ≤ length bytes.now }
    // It is the most for which both hold.
    ensures most { (n : ℕ) → n ≤ count → n * least ≤ length bytes.now → n ≤ result }
{
    count.min((bytes.len() / least) as u64)
}

/// `count` hashes.
pub(crate) fn hashes_of(
    alloc: Global,
    count: u64,
    bytes: &[u8],
) -> Result<(HashList, &[u8]), RecordFault>
    ensures { Gives (λ x. (x.0, x.1.now)) result (many_at any_hashes hash_at count [] bytes.now) }
{
    let mut hashes = HashList::with_capacity(alloc, room_for(count, 32, bytes))?;
    let mut rest = bytes;
    for _ in 0..count {
        let (hash, after) = hash_of(rest)?;
        hashes.push(*hash)?;
        rest = after;
    }
    Ok((hashes, rest))
}

// `count` names, which rise.
fn names_of(alloc: Global, count: u64, bytes: &[u8]) -> Result<(NameList, &[u8]), RecordFault>
    ensures { Gives (λ x. (x.0, x.1.now)) result (many_at are_rising named_at count [] bytes.now) }
{
    let mut names = NameList::with_capacity(alloc, room_for(count, 9, bytes))?;
    let mut rest = bytes;
    for _ in 0..count {
        match name_of(rest) {
            Ok((name, after)) => {
                push_name(&mut names, name)?;
                rest = after;
            }
            Err(fault) => return Err(fault),
        }
    }
    Ok((names, rest))
}

/// A list of names, which rise.
pub(crate) fn name_list_of(alloc: Global, bytes: &[u8]) -> Result<(NameList, &[u8]), RecordFault>
    ensures { Gives (λ x. (x.0, x.1.now)) result (name_list_at bytes.now) }
{
    let (count, rest) = number_of(bytes)?;
    let (names, rest) = names_of(alloc, count, rest)?;
    Ok((names, rest))
}

// A name and its node.
#[tactic(auto, unfolding(crate::specs::Reading::fresh_at))]
fn fresh_of(
    alloc: Global,
    format: Format,
    bytes: &[u8],
) -> Result<((NodeName, PlainNode), &[u8]), RecordFault>
    ensures { Gives (λ x. (x.0, x.1.now)) result (fresh_at format bytes.now) }
{
    match name_of(bytes) {
        Ok((name, rest)) => {
            let (node, rest) = node_of(alloc, format, rest)?;
            Ok(((name, node), rest))
        }
        Err(fault) => Err(fault),
    }
}

// `count` nodes, whose names rise. A name has 9 bytes or more, a leaf 37, and an inner node more; the root of the empty map
// has one, and stands alone.
fn fresh_nodes_of(
    alloc: Global,
    format: Format,
    count: u64,
    bytes: &[u8],
) -> Result<(FreshList, &[u8]), RecordFault>
    ensures { Gives (λ x. (x.0, x.1.now)) result (many_at fresh_rise (fresh_at format) count [] bytes.now) }
{
    let mut nodes = FreshList::with_capacity(alloc, room_for(count, 46, bytes))?;
    let mut rest = bytes;
    for _ in 0..count {
        let (item, after) = fresh_of(alloc, format, rest)?;
        push_fresh(&mut nodes, item)?;
        rest = after;
    }
    Ok((nodes, rest))
}

/// A list of nodes, whose names rise.
pub(crate) fn fresh_list_of(
    alloc: Global,
    format: Format,
    bytes: &[u8],
) -> Result<(FreshList, &[u8]), RecordFault>
    ensures { Gives (λ x. (x.0, x.1.now)) result (fresh_list_at format bytes.now) }
{
    let (count, rest) = number_of(bytes)?;
    let (nodes, rest) = fresh_nodes_of(alloc, format, count, rest)?;
    Ok((nodes, rest))
}

// A name, its node, and the version since which the node is stale.
#[tactic(auto, unfolding(crate::specs::Reading::live_at))]
fn live_of(
    alloc: Global,
    format: Format,
    bytes: &[u8],
) -> Result<((NodeName, PlainNode, u64), &[u8]), RecordFault>
    ensures { Gives (λ x. (x.0, x.1.now)) result (live_at format bytes.now) }
{
    match name_of(bytes) {
        Ok((name, rest)) => {
            let (node, rest) = node_of(alloc, format, rest)?;
            let (since, rest) = number_of(rest)?;
            Ok(((name, node, since), rest))
        }
        Err(fault) => Err(fault),
    }
}

// `count` nodes with the versions since which they are stale, whose names rise.
fn live_nodes_of(
    alloc: Global,
    format: Format,
    count: u64,
    bytes: &[u8],
) -> Result<(LiveList, &[u8]), RecordFault>
    ensures { Gives (λ x. (x.0, x.1.now)) result (many_at live_rise (live_at format) count [] bytes.now) }
{
    let mut nodes = LiveList::with_capacity(alloc, room_for(count, 54, bytes))?;
    let mut rest = bytes;
    for _ in 0..count {
        let (item, after) = live_of(alloc, format, rest)?;
        push_live(&mut nodes, item)?;
        rest = after;
    }
    Ok((nodes, rest))
}

/// A list of nodes with the versions since which they are stale, whose names rise.
pub(crate) fn live_list_of(
    alloc: Global,
    format: Format,
    bytes: &[u8],
) -> Result<(LiveList, &[u8]), RecordFault>
    ensures { Gives (λ x. (x.0, x.1.now)) result (live_list_at format bytes.now) }
{
    let (count, rest) = number_of(bytes)?;
    let (nodes, rest) = live_nodes_of(alloc, format, count, rest)?;
    Ok((nodes, rest))
}
