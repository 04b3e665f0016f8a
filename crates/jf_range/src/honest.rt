// The honest chunk of a snapshot's map.
ghost use Rattle.std.specs.Prelude.{◌≡◌, ◌+◌, ◌-◌, ◌*◌, ◌<◌, ◌≤◌, MatchResult, IfOk, length, min};
ghost use Rattle.std.specs.FinMap as fin;
ghost use Rattle.jf_evidence.specs.Ranges.{right_siblings, chunk_entries, range_proof_of};
ghost use Rattle.jf_range.specs.Chunks.{IsChunk, IsNoChunk};

use crate::ask::RangeAsk;
use crate::walk::copy_range;
use jf_evidence::RangeProof;
use jf_hash::Hash;
use jf_node::Snapshot;
use jf_path::{HashList, Key, Memory, Pairs, bit};
use jf_proof::prove_counted;
use jf_steps::Steps;
use std::alloc::Global;
use std::marker::Brand;
use std::sync::ledger::{Blank, Ledger};

/// Returns the entries of a snapshot's map from place `start` on, `count` of them, at least 1, or as many as there are,
/// with the proof of the last one. If no entry stands at the place, returns the number of entries, and takes no memory.
pub fn prove_range(
    alloc: Global,
    snapshot: &Snapshot,
    start: u64,
    count: u64,
) -> Result<(Pairs, RangeProof), RangeAsk>
    // At least one entry is asked for.
    requires { 1 ≤ count }
    // After `Ok` these are the entries from the place on, with their honest proof; `Beyond` comes exactly if none stands there.
    ensures { MatchResult result (IsChunk snapshot.now.map start count) (IsNoChunk snapshot.now.map start) }
{
    prove_uncounted::<Brand>(alloc, snapshot, start, count, Blank::new(1))
}

/// Does what `prove_range` does, and counts. A step is one node looked at, while the entries are copied and on the way
/// down to the last one, for its proof. However large the map is and wherever the place, there are at most 65 for each
/// entry that is given, and 2,306 more.
pub fn prove_range_counted<L: Ledger>(
    alloc: Global,
    snapshot: &Snapshot,
    start: u64,
    count: u64,
    steps: &mut Steps<L>,
) -> Result<(Pairs, RangeProof), RangeAsk>
    // At least one entry is asked for.
    requires { 1 ≤ count }
    // After `Ok` these are the entries from the place on, with their honest proof; `Beyond` comes exactly if none stands there.
    ensures chunk { MatchResult result (IsChunk snapshot.now.map start count) (IsNoChunk snapshot.now.map start) }
    // At most 65 steps are taken for each entry that is asked for and there, and 2,306 more.
    ensures cost { steps.new ≤ steps.old + 65 * min count (fin.len snapshot.now.map - start) + 2306 }
{
    let total = snapshot.count();
    if start >= total {
        return Err(RangeAsk::Beyond(total));
    }
    let entries = entries_from(alloc, snapshot, start, count, steps)?;
    let Some(last) = entries.as_slice().last() else {
        unreachable!();
    };
    let key = last.0;
    let proof = range_proof_of(alloc, snapshot, &key, steps)?;
    Ok((entries, proof))
}

// Does it in a ledger of its own.
fn prove_uncounted<L: Ledger>(
    alloc: Global,
    snapshot: &Snapshot,
    start: u64,
    count: u64,
    blank: Blank,
) -> Result<(Pairs, RangeProof), RangeAsk>
    requires count { 1 ≤ count }
    requires name { blank.name ≡ L.name }
    requires parts { blank.parts ≡ L.parts }
    requires positive { 0 < blank.parts }
    ensures { MatchResult result (IsChunk snapshot.now.map start count) (IsNoChunk snapshot.now.map start) }
{
    let mut steps = Steps::<L>::new(blank);
    prove_range_counted(alloc, snapshot, start, count, &mut steps)
}

// The entries from a place on.
fn entries_from<L: Ledger>(
    alloc: Global,
    snapshot: &Snapshot,
    start: u64,
    count: u64,
    steps: &mut Steps<L>,
) -> Result<Pairs, Memory>
    ensures entries { IfOk result (λ es. es ≡ chunk_entries snapshot.now.map start count) }
    ensures cost { steps.new ≤ steps.old + 65 * min count (fin.len snapshot.now.map - start) + 2049 }
{
    let mut entries = Pairs::new(alloc);
    if let Some(top) = snapshot.top() {
        copy_range(alloc, top, start, count, &mut entries, steps)?;
    }
    Ok(entries)
}

// The proof of a key's entry for a chunk that ends with it.
fn range_proof_of<L: Ledger>(
    alloc: Global,
    snapshot: &Snapshot,
    key: &Key,
    steps: &mut Steps<L>,
) -> Result<RangeProof, Memory>
    ensures proof { IfOk result (λ p. p ≡ range_proof_of snapshot.now.map key.now) }
    ensures cost { steps.new ≤ steps.old + 257 }
{
    let proof = prove_counted(alloc, snapshot, key, steps)?;
    let siblings = right_siblings(alloc, key, proof.siblings.as_slice())?;
    Ok(RangeProof {
        depth: proof.siblings.len(),
        siblings,
    })
}

// Picks the siblings on the right of a key's way.
fn right_siblings(alloc: Global, key: &Key, siblings: &[Hash]) -> Result<HashList, Memory>
    requires { length siblings.now ≤ 256 }
    ensures { IfOk result (λ rights. rights ≡ right_siblings key.now siblings.now) }
{
    let mut rights = HashList::new(alloc);
    for (i, sibling) in siblings.iter().enumerate() {
        if !bit(key, siblings.len() - 1 - i) {
            rights.push(*sibling)?;
        }
    }
    Ok(rights)
}
