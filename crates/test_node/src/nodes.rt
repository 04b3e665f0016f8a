// Links, children and snapshots, whose roots are compared with those that the definition gives.
ghost use Rattle.std.specs.Prelude.{◌≡◌, ℕ, ◌+◌, ◌≤◌, ◌<◌, [], ◌∷◌, length, IfOk, Some};
ghost use Rattle.jf_path.specs.Nibbles.{nibble};
ghost use Rattle.jf_node.specs.Children.{entries_of_children, FitFrom, FitsAt, leaf_value};
ghost use Rattle.jf_node.specs.LinkFacts.{BeginAlike};

use jf_hash::{Hash, empty, inner, leaf, plain_root, value};
use jf_node::{Branches, Link, Range, Seen, Sixteen, Snapshot, Update};
use jf_path::{Bitmap, Key, Memory, Nibble, SharedBytes, nibble};
use std::alloc::Global;
use std::test::Fail;

const LOW: Key = [0x10; 32];

// A key that has only the first nibble of `LOW`.
const NEAR: Key = [0x1f; 32];

// A key that has the first 63 nibbles of `LOW`.
const LAST: Key = [
    0x10, 0x10, 0x10, 0x10, 0x10, 0x10, 0x10, 0x10, 0x10, 0x10, 0x10, 0x10, 0x10, 0x10, 0x10, 0x10,
    0x10, 0x10, 0x10, 0x10, 0x10, 0x10, 0x10, 0x10, 0x10, 0x10, 0x10, 0x10, 0x10, 0x10, 0x10, 0x11,
];

// A leaf of version 1.
fn one(alloc: Global, depth: u64, key: &Key, bytes: &[u8]) -> Result<Link, Memory>
    requires depth { depth ≤ 64 }
    requires short { length bytes.now ≤ 4096 }
    ensures { IfOk result (λ x. x ≡ leaf_value 1 depth key.now bytes.now) }
{
    let shared = SharedBytes::copy_of(alloc, bytes)?;
    Link::leaf(alloc, 1, depth, key, &shared, &value(bytes))
}

// Leaves at the nibbles at which two keys part.
fn leaves(alloc: Global, depth: u64, low: &Key, high: &Key) -> Result<Sixteen, Memory>
    requires depth { depth < 64 }
    requires parts { nibble low.now depth < nibble high.now depth }
    ensures fit { IfOk result (λ s. FitFrom depth 0 s) }
    ensures union { IfOk result (λ s. entries_of_children s ≡ (low.now, 97 ∷ []) ∷ (high.now, 98 ∷ []) ∷ []) }
{
    let a = one(alloc, depth + 1, low, b"a")?;
    let b = one(alloc, depth + 1, high, b"b")?;
    let mut children = Sixteen::none();
    children.set(nibble(low, depth as usize), Some(a));
    children.set(nibble(high, depth as usize), Some(b));
    Ok(children)
}

// The node over the leaves of two keys that part at a depth, and agree down to it.
fn parted_node(alloc: Global, depth: u64, low: &Key, high: &Key) -> Result<Link, Memory>
    requires depth { depth < 64 }
    requires parts { nibble low.now depth < nibble high.now depth }
    requires alike { (i : ℕ) → i < depth → nibble low.now i ≡ nibble high.now i }
    ensures entries { IfOk result (λ x. x.entries ≡ (low.now, 97 ∷ []) ∷ (high.now, 98 ∷ []) ∷ []) }
    ensures depth { IfOk result (λ x. x.depth ≡ depth) }
{
    let children = leaves(alloc, depth, low, high)?;
    Link::inner(alloc, 1, depth, children)
}

// The node over one child, which stands at a nibble.
fn over_one(alloc: Global, depth: u64, n: Nibble, link: Link) -> Result<Link, Memory>
    requires depth { depth < 64 }
    requires fits { FitsAt depth n (Some link) }
    requires inner { 2 ≤ length link.entries }
    requires alike { BeginAlike depth link.entries }
    ensures entries { IfOk result (λ x. x.entries ≡ link.entries) }
    ensures depth { IfOk result (λ x. x.depth ≡ depth) }
{
    let mut children = Sixteen::none();
    children.set(n, Some(link));
    Link::inner(alloc, 1, depth, children)
}

// The node of two entries, the lower key first, at a depth down to which the keys agree.
fn two(alloc: Global, depth: u64, low: &Key, high: &Key) -> Result<Link, Memory>
    requires depth { depth ≤ 64 }
    requires alike { (i : ℕ) → i < depth → nibble low.now i ≡ nibble high.now i }
    ensures entries { IfOk result (λ x. x.entries ≡ (low.now, 97 ∷ []) ∷ (high.now, 98 ∷ []) ∷ []) }
    ensures depth { IfOk result (λ x. x.depth ≡ depth) }
{
    if depth == 64 {
        return Err(Memory);
    }
    let n = nibble(low, depth as usize);
    if n.get() < nibble(high, depth as usize).get() {
        return parted_node(alloc, depth, low, high);
    }
    if n.get() > nibble(high, depth as usize).get() {
        return Err(Memory);
    }
    let link = two(alloc, depth + 1, low, high)?;
    over_one(alloc, depth, n, link)
}

fn has(link: &Link, key: &Key, bytes: &[u8]) -> bool {
    match link.get(key) {
        Some(value) => value == bytes,
        None => false,
    }
}

// A node made again over the same children.
fn again(alloc: Global, link: &Link, changed: Bitmap) -> Result<Link, Memory>
    ensures { IfOk result (λ x. (x.entries ≡ link.now.entries) × (x.depth ≡ link.now.depth)) }
{
    match link.view() {
        Seen::Leaf { .. } => link.renewed_link(alloc, 2),
        Seen::Inner { children } => {
            let children = children.share()?;
            link.with_children(alloc, 2, children, changed)
        }
    }
}

fn near_root() -> Hash {
    plain_root(&[(LOW, value(b"a")), (NEAR, value(b"b"))])
}

fn last_root() -> Hash {
    plain_root(&[(LOW, value(b"a")), (LAST, value(b"b"))])
}

// Whether a node of version 1 has two entries with this root, `LOW` and another.
fn has_two(link: &Link, root: &Hash, high: &Key) -> bool {
    link.hash() == *root
        && link.count() == 2
        && link.version() == 1
        && has(link, &LOW, b"a")
        && has(link, high, b"b")
}

#[test]
fn two_keys_part_at_their_second_nibble(rt: HostRuntime) -> Result<(), Fail> {
    let link = two(rt.alloc(), 0, &LOW, &NEAR)?;
    assert!(rt; has_two(&link, &near_root(), &NEAR) && link.get(&LAST).is_none());
    Ok(())
}

#[test]
fn two_keys_part_at_their_last_nibble(rt: HostRuntime) -> Result<(), Fail> {
    let link = two(rt.alloc(), 0, &LOW, &LAST)?;
    assert!(rt; has_two(&link, &last_root(), &LAST) && link.get(&NEAR).is_none());
    Ok(())
}

// Whether the node over the same children has the same hash.
fn keeps_its_hash(alloc: Global, link: &Link, changed: Bitmap) -> Result<bool, Memory> {
    let made = again(alloc, link, changed)?;
    Ok(made.hash() == link.hash())
}

// Whether the node of another version has the same hash.
fn is_renewed(alloc: Global, link: &Link) -> Result<bool, Memory> {
    let renewed = link.renewed_link(alloc, 3)?;
    Ok(renewed.hash() == link.hash() && renewed.version() == 3)
}

// Whether a node keeps its hash, with no child changed, with all changed, and in another version.
fn is_made_again(alloc: Global, link: &Link) -> Result<bool, Memory> {
    let none = keeps_its_hash(alloc, link, Bitmap::none())?;
    let all = keeps_its_hash(alloc, link, Bitmap::all())?;
    Ok(none && all && is_renewed(alloc, link)?)
}

#[test]
fn a_node_is_made_again(rt: HostRuntime) -> Result<(), Fail> {
    let link = two(rt.alloc(), 0, &LOW, &NEAR)?;
    assert!(rt; is_made_again(rt.alloc(), &link)?);
    Ok(())
}

// Whether a leaf has moved to the bottom, in version 2, with its hash.
fn has_moved(leaf: &Link, moved: &Link) -> bool {
    moved.hash() == leaf.hash() && moved.version() == 2 && moved.depth() == 64
}

#[test]
fn a_leaf_is_moved(rt: HostRuntime) -> Result<(), Fail> {
    let leaf = one(rt.alloc(), 7, &LOW, b"a")?;
    let moved = leaf.at(rt.alloc(), 2, 64)?;
    assert!(rt; has_moved(&leaf, &moved));
    assert!(rt; has(&moved.share()?, &LOW, b"a"));
    Ok(())
}

// Whether the hash of a node is that of the halves of its places, and place 0 is empty.
fn has_ranges(link: &Link) -> bool
    requires { 2 ≤ length link.now.entries }
{
    link.range_hash(0, 1) == empty()
        && link.hash() == inner(&link.range_hash(0, 8), &link.range_hash(8, 8))
}

#[test]
fn a_range_of_places_has_its_hash(rt: HostRuntime) -> Result<(), Fail> {
    let link = two(rt.alloc(), 0, &LOW, &NEAR)?;
    assert!(rt; has_ranges(&link));
    Ok(())
}

fn is_empty(snapshot: &Snapshot) -> bool {
    snapshot.root() == empty()
        && snapshot.count() == 0
        && snapshot.version() == 5
        && snapshot.top().is_none()
        && snapshot.get(&LOW).is_none()
}

fn is_of_one(snapshot: &Snapshot) -> bool {
    snapshot.root() == leaf(&LOW, &value(b"a"))
        && snapshot.count() == 1
        && snapshot.top().is_some()
        && snapshot.get(&LOW) == Some(b"a".as_slice())
}

fn snapshot_of_one(alloc: Global) -> Result<Snapshot, Memory> {
    let top = one(alloc, 0, &LOW, b"a")?;
    Snapshot::of(1, Some(top)).share()
}

#[test]
fn the_empty_snapshot_has_no_top(rt: HostRuntime) -> Result<(), Fail> {
    assert!(rt; is_empty(&Snapshot::empty(5)));
    Ok(())
}

#[test]
fn a_snapshot_has_its_top(rt: HostRuntime) -> Result<(), Fail> {
    let snapshot = snapshot_of_one(rt.alloc())?;
    assert!(rt; is_of_one(&snapshot));
    Ok(())
}

fn passes_between_threads<T: Send + Sync>() {}

#[test]
fn links_and_what_holds_them_pass_between_threads(_rt: HostRuntime) -> Result<(), Fail> {
    passes_between_threads::<Link>();
    passes_between_threads::<Sixteen>();
    passes_between_threads::<Branches>();
    passes_between_threads::<Snapshot>();
    passes_between_threads::<Update>();
    Ok(())
}

// Whether four halves taken by the bits 0001 still have both entries, and the next halves have one each.
fn fall_apart(link: &Link) -> bool
    requires { link.now.depth ≡ 0 }
{
    let fourth = Range::of(link).zeros().zeros().zeros().ones();
    let (low, near) = fourth.halves();
    fourth.count() == 2
        && low.hash() == leaf(&LOW, &value(b"a"))
        && near.get(&NEAR) == Some(b"b".as_slice())
        && near.get(&LOW).is_none()
}

// Whether a range that is shared twice has the hash of its node.
fn is_kept(link: &Link) -> Result<bool, Memory> {
    let kept = Range::of(link).share()?;
    let again = kept.share()?;
    Ok(again.range().hash() == link.hash())
}

#[test]
fn a_range_falls_into_halves(rt: HostRuntime) -> Result<(), Fail> {
    let link = two(rt.alloc(), 0, &LOW, &NEAR)?;
    assert!(rt; fall_apart(&link) && is_kept(&link)?);
    Ok(())
}
