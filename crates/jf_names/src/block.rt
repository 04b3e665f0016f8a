// The block of what a map says of names, with one proof.
ghost use Rattle.std.specs.Prelude.{◌≡◌, IfOk};
ghost use Rattle.jf_names.specs.Names.{names_block};

use crate::names::NameMap;
use jf_many_blocks::{write_items, write_many_line};
use jf_multi::prove_many;
use jf_node::Snapshot;
use jf_path::{Bytes, Memory};
use std::alloc::Global;

/// The block of what a snapshot's map says of names, with the one proof of it all.
pub(crate) fn names_block(
    alloc: Global,
    names: &NameMap,
    snapshot: &Snapshot,
) -> Result<Bytes, Memory>
    ensures { IfOk result (λ text. text ≡ names_block snapshot.now.map names.now) }
{
    let keys = names.keys(alloc)?;
    let proof = prove_many(alloc, snapshot, &keys)?;
    let mut text = Bytes::new(alloc);
    write_many_line(names.len(), proof.len(), &mut text)?;
    names.write_claims(snapshot, &mut text)?;
    write_items(proof.as_slice(), &mut text)?;
    Ok(text)
}
