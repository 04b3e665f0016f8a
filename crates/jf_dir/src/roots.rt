// Lists of roots.
ghost use Rattle.std.specs.Prelude.{◌≡◌, ℕ, ◌<◌, [], ◌∷◌, ◌++◌, IfOk, slice_index};
ghost use Rattle.std.specs.List.{AllByRecursion};
ghost use Rattle.jf_path.specs.Keys.{IsKey};

use jf_hash::Hash;
use jf_path::{Memory, know_key};
use std::alloc::Global;

/// Ensures that each hash has 32 bytes. Changes nothing.
pub(crate) fn know_hashes(hashes: &[Hash])
    ensures { AllByRecursion IsKey hashes.now }
{
    for hash in hashes {
        know_key(hash);
    }
}

/// The roots with one more at the end.
pub(crate) fn roots_with(alloc: Global, earlier: &[Hash], last: Hash) -> Result<Vec<Hash>, Memory>
    ensures { IfOk result (λ v. v.items ≡ earlier.now ++ last ∷ []) }
{
    let mut roots = Vec::with_capacity(alloc, earlier.len())?;
    for root in earlier {
        roots.push(*root)?;
    }
    roots.push(last)?;
    Ok(roots)
}
