// The line that tells of a restored version.
ghost use Rattle.std.specs.Prelude.{◌≡◌, ◌++◌, IfOk, OnOk};
ghost use Rattle.jf_receive.specs.Restored.{restored_text};

use jf_hash::Hash;
use jf_path::{Bytes, Memory};
use jf_text::{write_hex, write_number};
use std::alloc::Global;

/// The line that tells of a restored version, with its root and the number of its entries.
pub(crate) fn restored_line(
    alloc: Global,
    version: u64,
    root: &Hash,
    count: u64,
) -> Result<Bytes, Memory>
    ensures { IfOk result (λ line. line ≡ restored_text version root.now count) }
{
    let mut line = Bytes::new(alloc);
    write_number(b"restored ", version, &mut line)?;
    write_hex(b" ", root, &mut line)?;
    write_number(b" ", count, &mut line)?;
    line.push(b'\n')?;
    Ok(line)
}
