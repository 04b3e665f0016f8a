// A landing block is written: its first line, then a line for each change.
ghost use Rattle.std.specs.Prelude.{◌≡◌, ◌++◌, ◌∷◌, [], OnOk, OnErr};
ghost use Rattle.jf_text.specs.Words.{line_text, Extends};
ghost use Rattle.jf_lead.specs.Landings.{landing_text, landing_head_line, change_lines, change_words};

use jf_blocks::write_hex_line;
use jf_hash::Hash;
use jf_path::{Bytes, Key, Memory, SharedBytes};
use jf_split::Batch;
use jf_text::{write_hex, write_number};

/// Appends the block of a landing: the version, the root of its map, and the batch that makes it of the version before
/// (docs/FORMATS.md, "Landing blocks"). If memory runs out, the text is unchanged.
pub fn write_landing(
    version: u64,
    root: &Hash,
    batch: &Batch,
    out: &mut Bytes,
) -> Result<(), Memory>
    // After Ok, the text of the block stands at the end.
    ensures ok { OnOk result (out.new ≡ out.old ++ landing_text version root.now batch.now) }
    // After Err, the text is unchanged.
    ensures err { OnErr result (out.new ≡ out.old) }
{
    let before = out.len();
    match write_block(version, root, batch, out) {
        Ok(()) => Ok(()),
        Err(Memory) => {
            out.truncate(before);
            Err(Memory)
        }
    }
}

fn write_block(version: u64, root: &Hash, batch: &Batch, out: &mut Bytes) -> Result<(), Memory>
    ensures ok { OnOk result (out.new ≡ out.old ++ landing_text version root.now batch.now) }
    ensures err { OnErr result (Extends out.old out.new) }
{
    write_head(version, root, batch.len() as u64, out)?;
    write_changes(batch.as_slice(), out)
}

/// Appends the first line of a block.
fn write_head(version: u64, root: &Hash, changes: u64, out: &mut Bytes) -> Result<(), Memory>
    ensures ok { OnOk result (out.new ≡ out.old ++ landing_head_line version root.now changes) }
    ensures err { OnErr result (Extends out.old out.new) }
{
    write_number(b"landing ", version, out)?;
    write_hex(b" ", root, out)?;
    write_number(b" ", changes, out)?;
    out.push(b'\n')
}

/// Appends the lines of changes.
fn write_changes(changes: &[(Key, Option<SharedBytes>)], out: &mut Bytes) -> Result<(), Memory>
    ensures ok { OnOk result (out.new ≡ out.old ++ change_lines changes.now) }
    ensures err { OnErr result (Extends out.old out.new) }
{
    for change in changes {
        write_change(change, out)?;
    }
    Ok(())
}

/// Appends the line of a change.
fn write_change(change: &(Key, Option<SharedBytes>), out: &mut Bytes) -> Result<(), Memory>
    ensures ok { OnOk result (out.new ≡ out.old ++ line_text (change_words change.now.0 change.now.1)) }
    ensures err { OnErr result (Extends out.old out.new) }
{
    match &change.1 {
        Some(value) => {
            write_hex(b"put ", &change.0, out)?;
            write_hex_line(b" =", value.as_slice(), out)
        }
        None => write_hex_line(b"del ", &change.0, out),
    }
}
