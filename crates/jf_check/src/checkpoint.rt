// How large the file of a new checkpoint would be.
ghost use Rattle.std.specs.Prelude.{◌≡◌, ℕ, length, IfOk};
ghost use Rattle.jf_check.specs.Stores.{checkpoint_file};

use jf_codec::Format;
use jf_dir::Directory;
use jf_hash::Hash;
use jf_path::{HashList, Memory};
use jf_payload::{Record, encode, kept_is_spelled, sum_within};
use jf_standing::checkpoints_are_spelled;
use std::alloc::Global;

// The number of bytes of the file that has the checkpoint of a directory alone: a gate, and the frame.
pub(crate) fn checkpoint_size(alloc: Global, directory: &Directory) -> Result<u64, Memory>
    ensures { IfOk result (λ n. (g : ℕ) → n ≡ length (checkpoint_file g directory.now)) }
{
    directory.know();
    let _ = directory.count();
    checkpoints_are_spelled();
    kept_is_spelled();
    let record = Record::Checkpoint {
        generation: 1,
        base: directory.base(),
        floor: directory.floor(),
        head: directory.head(),
        roots: copy_of(alloc, directory.roots())?,
        nodes: directory.live(alloc)?,
    };
    let frame = encode(alloc, &record, Format::Two)?;
    sum_within(1, frame.len())
}

// A copy of a list of hashes.
fn copy_of(alloc: Global, hashes: &[Hash]) -> Result<HashList, Memory>
    ensures { IfOk result (λ list. list ≡ hashes.now) }
{
    let mut list = HashList::with_capacity(alloc, hashes.len() as u64)?;
    for hash in hashes {
        list.push(*hash)?;
    }
    Ok(list)
}
