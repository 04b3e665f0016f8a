// A block of many claims: its first line, a line for each claim, and a line for each item of the proof
// (docs/FORMATS.md, Blocks of many claims).
ghost use Rattle.std.specs.Prelude.{◌≡◌, ◌++◌, OnOk, OnErr};
ghost use Rattle.std.specs.Option.{option_copied};
ghost use Rattle.jf_text.specs.Words.{Extends};
ghost use Rattle.jf_many_blocks.specs.ManyBlocks.{many_line_text, named_claim_text, named_claim_lines, item_text, item_lines, many_block};

use jf_blocks::write_hex_line;
use jf_multi::Item;
use jf_path::{Bytes, Memory};
use jf_text::{write_hex, write_number};

/// Appends a block of many claims: what is claimed of each name, and the items of the proof. If memory runs out, the
/// text is unchanged. A reader takes at most 10,000 claims and 5,120,001 items.
pub fn write_many(
    claims: &[(Bytes, Option<Bytes>)],
    items: &[Item],
    out: &mut Bytes,
) -> Result<(), Memory>
    // After Ok, the text of the block stands at the end.
    ensures ok { OnOk result (out.new ≡ out.old ++ many_block claims.now items.now) }
    // After Err, the text is unchanged.
    ensures err { OnErr result (out.new ≡ out.old) }
{
    let before = out.len();
    match write_lines(claims, items, out) {
        Ok(()) => Ok(()),
        Err(Memory) => {
            out.truncate(before);
            Err(Memory)
        }
    }
}

fn write_lines(
    claims: &[(Bytes, Option<Bytes>)],
    items: &[Item],
    out: &mut Bytes,
) -> Result<(), Memory>
    ensures ok { OnOk result (out.new ≡ out.old ++ many_block claims.now items.now) }
    ensures err { OnErr result (Extends out.old out.new) }
{
    write_many_line(claims.len() as u64, items.len() as u64, out)?;
    write_claims(claims, out)?;
    write_items(items, out)
}

/// Appends the first line of a block with so many claims and items. If memory runs out, part of it may be there; so it
/// is with each of the calls below.
pub fn write_many_line(claims: u64, items: u64, out: &mut Bytes) -> Result<(), Memory>
    // After Ok, the line stands at the end.
    ensures ok { OnOk result (out.new ≡ out.old ++ many_line_text claims items) }
    // After Err, what was there is unchanged, and a part may follow it.
    ensures err { OnErr result (Extends out.old out.new) }
{
    write_number(b"many ", claims, out)?;
    write_number(b" ", items, out)?;
    out.push(b'\n')
}

// Appends the lines of claims.
fn write_claims(claims: &[(Bytes, Option<Bytes>)], out: &mut Bytes) -> Result<(), Memory>
    ensures ok { OnOk result (out.new ≡ out.old ++ named_claim_lines claims.now) }
    ensures err { OnErr result (Extends out.old out.new) }
{
    for claim in claims {
        write_named_claim(claim.0.as_slice(), claimed_value(&claim.1), out)?;
    }
    Ok(())
}

// The value that is claimed, or `None` if absence is.
fn claimed_value(claim: &Option<Bytes>) -> Option<&[u8]>
    ensures { option_copied result ≡ claim.now }
{
    match claim {
        Some(bytes) => Some(bytes.as_slice()),
        None => None,
    }
}

/// Appends the line of what is claimed of a name.
pub fn write_named_claim(name: &[u8], claim: Option<&[u8]>, out: &mut Bytes) -> Result<(), Memory>
    // After Ok, the line stands at the end.
    ensures ok { OnOk result (out.new ≡ out.old ++ named_claim_text (name.now, option_copied claim.entry)) }
    // After Err, what was there is unchanged, and a part may follow it.
    ensures err { OnErr result (Extends out.old out.new) }
{
    write_hex(b"claim ", name, out)?;
    match claim {
        Some(value) => write_hex_line(b" =", value, out),
        None => out.append(b" none\n"),
    }
}

/// Appends the lines of items.
pub fn write_items(items: &[Item], out: &mut Bytes) -> Result<(), Memory>
    // After Ok, the lines stand at the end, in the order of the items.
    ensures ok { OnOk result (out.new ≡ out.old ++ item_lines items.now) }
    // After Err, what was there is unchanged, and a part may follow it.
    ensures err { OnErr result (Extends out.old out.new) }
{
    for item in items {
        write_item(item, out)?;
    }
    Ok(())
}

/// Appends the line of an item.
pub fn write_item(item: &Item, out: &mut Bytes) -> Result<(), Memory>
    // After Ok, the line stands at the end.
    ensures ok { OnOk result (out.new ≡ out.old ++ item_text item.now) }
    // After Err, what was there is unchanged, and a part may follow it.
    ensures err { OnErr result (Extends out.old out.new) }
{
    match item {
        Item::Fork => out.append(b"fork\n"),
        Item::Rest(hash) => write_hex_line(b"rest ", hash, out),
        Item::End(None) => out.append(b"end none\n"),
        Item::End(Some(leaf)) => {
            write_hex(b"end ", &leaf.0, out)?;
            write_hex_line(b" ", &leaf.1, out)
        }
    }
}
