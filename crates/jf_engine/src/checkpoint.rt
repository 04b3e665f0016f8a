// The checkpoint of a directory: one record from which all that is kept can be read.
ghost use Rattle.std.specs.Prelude.{◌≡◌, ◌≤◌, ◌-◌, ◌^◌, IfOk, OnOk};
ghost use Rattle.jf_frame.specs.Framing.{IsFrame};
ghost use Rattle.jf_codec.specs.declared.format.Format.TheVariants as format;
ghost use Rattle.jf_payload.specs.Spelling.{IsRecord, checkpoint_kind, record_bytes};
ghost use Rattle.jf_standing.specs.Building.{checkpoint_of};

use jf_codec::Format;
use jf_dir::Directory;
use jf_hash::Hash;
use jf_path::{Bytes, HashList, Memory};
use jf_payload::{Record, encode, kept_is_spelled};
use jf_standing::checkpoints_are_spelled;
use std::alloc::Global;

/// The frame of the checkpoint of a directory, in format 2.
pub(crate) fn checkpoint_frame(
    alloc: Global,
    directory: &Directory,
    generation: u64,
) -> Result<Bytes, Memory>
    requires positive { 1 ≤ generation }
    requires bounded { generation ≤ 2 ^ 64 - 2 }
    ensures spelled { OnOk result (IsRecord format.Two (checkpoint_of generation directory.now)) }
    ensures frame { IfOk result (λ bytes. IsFrame bytes (checkpoint_kind format.Two) (record_bytes format.Two (checkpoint_of generation directory.now))) }
{
    directory.know();
    let _ = directory.count();
    checkpoints_are_spelled();
    kept_is_spelled();
    let record = Record::Checkpoint {
        generation,
        base: directory.base(),
        floor: directory.floor(),
        head: directory.head(),
        roots: copy_of(alloc, directory.roots())?,
        nodes: directory.live(alloc)?,
    };
    encode(alloc, &record, Format::Two)
}

/// A copy of a list of hashes.
fn copy_of(alloc: Global, hashes: &[Hash]) -> Result<HashList, Memory>
    ensures { IfOk result (λ list. list ≡ hashes.now) }
{
    let mut list = HashList::with_capacity(alloc, hashes.len() as u64)?;
    for hash in hashes {
        list.push(*hash)?;
    }
    Ok(list)
}
