// Judging a chunk by all known entries.
ghost use Rattle.std.specs.Prelude.{◌≡◌, ◌<◌, T, false, length};
ghost use Rattle.std.specs.FinMap.{is_sorted};
ghost use Rattle.std.specs.Result.{result_err};
ghost use Rattle.jf_path.specs.Keys.{key_cmp};
ghost use Rattle.jf_evidence.specs.Ranges.{last_key, range_root, range_refusal, is_miscounted};

use crate::frontier::Frontier;
use jf_evidence::{RangeFault, RangeProof};
use jf_hash::Hash;
use jf_path::{Pairs, know_entries};
use jf_steps::Steps;
use std::marker::Brand;
use std::sync::ledger::{Blank, Ledger};

/// Whether new entries are accepted after known ones, whose keys ascend strictly, under the root of a map. They are
/// refused by the first check that fails. All entries are hashed; for many chunks in turn, a `Frontier` avoids hashing
/// the known ones again.
pub fn verify_range(
    root: &Hash,
    known: &Pairs,
    fresh: &Pairs,
    proof: &RangeProof,
) -> Result<(), RangeFault>
    // The keys of the known entries ascend strictly.
    requires { T (is_sorted key_cmp known.now) }
    // The refusal is the first check that fails; `Ok` comes exactly if none does.
    ensures { result_err result ≡ range_refusal root.now known.now fresh.now proof.now }
{
    verify_uncounted::<Brand>(root, known, fresh, proof, Blank::new(1))
}

// Does it in a ledger of its own.
fn verify_uncounted<L: Ledger>(
    root: &Hash,
    known: &Pairs,
    fresh: &Pairs,
    proof: &RangeProof,
    blank: Blank,
) -> Result<(), RangeFault>
    requires sorted { T (is_sorted key_cmp known.now) }
    requires name { blank.name ≡ L.name }
    requires parts { blank.parts ≡ L.parts }
    requires positive { 0 < blank.parts }
    ensures { result_err result ≡ range_refusal root.now known.now fresh.now proof.now }
{
    let mut steps = Steps::<L>::new(blank);
    let entries = known.as_slice();
    know_entries(entries);
    let mut frontier = Frontier::new();
    frontier.extend(entries, &mut steps);
    match frontier.accept(root, fresh, proof, &mut steps) {
        Ok(_) => Ok(()),
        Err(why) => Err(why),
    }
}

/// The root that entries, whose keys ascend strictly, and a proof for a chunk that ends with the last one determine. Its
/// depth is at most 256, and it has as many siblings as the last key has 0 bits among its first `depth` bits.
pub fn range_root(entries: &Pairs, proof: &RangeProof) -> Hash
    // There is at least one entry.
    requires positive { 0 < length entries.now }
    // The keys of the entries ascend strictly.
    requires sorted { T (is_sorted key_cmp entries.now) }
    // The depth is at most 256, and there is a sibling for each 0 bit among the last key's first `depth` bits.
    requires counted { is_miscounted (last_key entries.now) proof.now ≡ false }
    // The result is the root that the entries and the proof determine.
    ensures { result ≡ range_root entries.now proof.now }
{
    root_uncounted::<Brand>(entries, proof, Blank::new(1))
}

// Does it in a ledger of its own.
fn root_uncounted<L: Ledger>(entries: &Pairs, proof: &RangeProof, blank: Blank) -> Hash
    requires entries { 0 < length entries.now }
    requires sorted { T (is_sorted key_cmp entries.now) }
    requires counted { is_miscounted (last_key entries.now) proof.now ≡ false }
    requires name { blank.name ≡ L.name }
    requires parts { blank.parts ≡ L.parts }
    requires positive { 0 < blank.parts }
    ensures { result ≡ range_root entries.now proof.now }
{
    let mut steps = Steps::<L>::new(blank);
    let entries = entries.as_slice();
    know_entries(entries);
    let mut frontier = Frontier::new();
    frontier.extend(entries, &mut steps);
    frontier.chunk_root(proof, &mut steps)
}
