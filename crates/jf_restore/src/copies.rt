// Copies of a chunk's entries, appended to those of a restore.
ghost use Rattle.std.specs.Prelude.{◌≡◌, ◌++◌, length, take, OnOk, OnErr};

use jf_path::{Bytes, Key, Memory, Pairs};
use std::alloc::Global;

// Appends a copy of each entry. After a refusal the entries are unchanged.
pub(crate) fn add_copies(
    alloc: Global,
    entries: &mut Pairs,
    fresh: &[(Key, Bytes)],
) -> Result<(), Memory>
    ensures ok { OnOk result (entries.new ≡ entries.old ++ fresh.now) }
    ensures err { OnErr result (entries.new ≡ entries.old) }
{
    let len = entries.len();
    match push_copies(alloc, entries, fresh) {
        Ok(()) => Ok(()),
        Err(memory) => {
            entries.truncate(len);
            Err(memory)
        }
    }
}

// Appends copies one by one; after a refusal some may stand after what was there.
fn push_copies(alloc: Global, entries: &mut Pairs, fresh: &[(Key, Bytes)]) -> Result<(), Memory>
    ensures ok { OnOk result (entries.new ≡ entries.old ++ fresh.now) }
    ensures err { OnErr result (take (length entries.old) entries.new ≡ entries.old) }
{
    for entry in fresh {
        let key = entry.0;
        let value = Bytes::copy_of(alloc, entry.1.as_slice())?;
        entries.push((key, value))?;
    }
    Ok(())
}
