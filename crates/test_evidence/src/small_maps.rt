// Proofs of the map without entries, and of maps of one entry.
use jf_hash::{Hash, key_of, value};
use jf_node::{Link, Snapshot};
use jf_path::{Key, Memory, SharedBytes};
use jf_proof::{Proof, prove, verify};
use std::alloc::Global;
use std::test::Fail;

// The map that has `one` at a key.
fn one(alloc: Global, key: &Hash) -> Result<Snapshot, Memory> {
    let shared = SharedBytes::copy_of(alloc, b"one")?;
    let top = Link::leaf(alloc, 1, 0, key, &shared, &value(b"one"))?;
    Ok(Snapshot::of(1, Some(top)))
}

// Whether the proof has that leaf and no siblings, and shows the claim.
fn shows(
    root: &Hash,
    key: &Key,
    claim: Option<&str>,
    proof: &Proof,
    leaf: Option<(Key, Hash)>,
) -> bool {
    proof.leaf == leaf
        && proof.siblings.len() == 0
        && verify(root, key, claim.map(str::as_bytes), proof).is_ok()
}

// Whether the map's proof of a name has that leaf, and shows the claim.
fn is_shown(
    alloc: Global,
    snapshot: &Snapshot,
    name: &str,
    claim: Option<&str>,
    leaf: Option<(Key, Hash)>,
) -> Result<bool, Memory> {
    let key = key_of(name.as_bytes());
    let proof = prove(alloc, snapshot, &key)?;
    Ok(shows(&snapshot.root(), &key, claim, &proof, leaf))
}

#[test]
fn the_empty_map_shows_that_a_key_is_absent(rt: HostRuntime) -> Result<(), Fail> {
    assert!(rt; is_shown(rt.alloc(), &Snapshot::empty(1), "x", None, None)?);
    Ok(())
}

#[test]
fn one_entry_shows_its_value_and_that_others_are_absent(rt: HostRuntime) -> Result<(), Fail> {
    let x = key_of(b"x");
    let snapshot = one(rt.alloc(), &x)?;
    let leaf = Some((x, value(b"one")));
    assert!(rt; is_shown(rt.alloc(), &snapshot, "x", Some("one"), leaf)?);
    assert!(rt; is_shown(rt.alloc(), &snapshot, "z24", None, leaf)?);
    Ok(())
}
