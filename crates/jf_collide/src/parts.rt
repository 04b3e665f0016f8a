// What the root of a whole map hashes, from its entries in the order of their keys.
ghost use Rattle.std.specs.Prelude.{◌≡◌, ◌+◌, ◌-◌, ◌<◌, [], ◌∷◌, ◌++◌, IfOk, OnOk, T, reverse};
ghost use Rattle.std.specs.FinMap.{is_sorted};
ghost use Rattle.sha2.specs.Sha256.{sha256};
ghost use Rattle.jf_path.specs.Keys.{key_cmp};
ghost use Rattle.jf_hash.specs.Parts.{IsPart, IsFirstOne};
ghost use Rattle.jf_hash.specs.Roots.{part_root};
ghost use Rattle.jf_evidence.specs.MapClashes.{part_inputs};

use crate::inputs::{hash_of, tagged_input, value_input};
use jf_hash::Hash;
use jf_path::{Bytes, Key, Memory, bit, know_entries};
use std::alloc::Global;

// What the root of all entries hashes, itself first.
pub(crate) fn whole_inputs(alloc: Global, entries: &[(Key, Bytes)]) -> Result<Vec<Bytes>, Memory>
    requires { T (is_sorted key_cmp entries.now) }
    ensures { IfOk result (λ xs. xs.items ≡ part_inputs 256 0 entries.now) }
{
    know_entries(entries);
    let mut inputs = Vec::new(alloc);
    push_part(alloc, entries, 0, &mut inputs)?;
    inputs.reverse();
    Ok(inputs)
}

// Appends what the root of entries hashes, its own input last; the keys of the entries agree in the first `depth` bits.
fn push_part(
    alloc: Global,
    entries: &[(Key, Bytes)],
    depth: usize,
    inputs: &mut Vec<Bytes>,
) -> Result<Hash, Memory>
    requires part { IsPart depth entries.now }
    ensures root { IfOk result (λ hash. hash ≡ part_root depth entries.now) }
    ensures inputs { OnOk result (reverse inputs.new.items ≡ part_inputs (256 - depth) depth entries.now ++ reverse inputs.old.items) }
{
    match entries {
        [] => {
            let input = tagged_input(alloc, 0, &[], &[])?;
            let hash = push_input(input, inputs)?;
            Ok(hash)
        }
        [entry] => {
            let bytes = value_input(alloc, entry.1.as_slice())?;
            let value = push_input(bytes, inputs)?;
            let input = tagged_input(alloc, 1, &entry.0, &value)?;
            let hash = push_input(input, inputs)?;
            Ok(hash)
        }
        _ => {
            let ones = first_one(entries, depth);
            let right = push_part(alloc, &entries[ones..], depth + 1, inputs)?;
            let left = push_part(alloc, &entries[..ones], depth + 1, inputs)?;
            let input = tagged_input(alloc, 2, &left, &right)?;
            let hash = push_input(input, inputs)?;
            Ok(hash)
        }
    }
}

// Appends an input, and returns its hash.
fn push_input(input: Bytes, inputs: &mut Vec<Bytes>) -> Result<Hash, Memory>
    ensures hash { IfOk result (λ hash. hash ≡ sha256 input) }
    ensures inputs { OnOk result (inputs.new.items ≡ inputs.old.items ++ input ∷ []) }
{
    let hash = hash_of(&input);
    inputs.push(input)?;
    Ok(hash)
}

// The place of the first entry whose bit `depth` is 1, or the number of entries if there is no such entry.
fn first_one(entries: &[(Key, Bytes)], depth: usize) -> usize
    requires { depth < 256 }
    ensures { IsFirstOne depth result entries.now }
{
    for (i, entry) in entries.iter().enumerate() {
        if bit(&entry.0, depth) {
            return i;
        }
    }
    entries.len()
}
