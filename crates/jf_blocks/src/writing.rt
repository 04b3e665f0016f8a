// A proof block after its first line: the lines of the name, the claim and the leaf, then a line `side HASH` for each
// sibling.
ghost use Rattle.std.specs.Prelude.{◌≡◌, ◌∷◌, ◌++◌, [], codes, OnOk, OnErr};
ghost use Rattle.std.specs.Option.{option_copied};
ghost use Rattle.hex.specs.Hex.{encode_lower};
ghost use Rattle.jf_text.specs.Words.{line_text};
ghost use Rattle.jf_text.specs.Words.{Extends};
ghost use Rattle.jf_blocks.specs.Blocks.{proof_lines, claim_word, leaf_words, side_lines};

use hex::encode_to_slice;
use jf_evidence::Proof;
use jf_hash::Hash;
use jf_path::{Bytes, Key, Memory};
use jf_text::write_hex;

/// Appends a proof block without its first line: the name, what is claimed of it, and the proof, the lowest sibling
/// first. If memory runs out, the text is unchanged (docs/FORMATS.md, Proof blocks).
pub fn write_proof(
    name: &[u8],
    claim: Option<&[u8]>,
    proof: &Proof,
    out: &mut Bytes,
) -> Result<(), Memory>
    ensures ok { OnOk result (out.new ≡ out.old ++ proof_lines name.now (option_copied claim.entry) proof.now) }
    ensures err { OnErr result (out.new ≡ out.old) }
{
    out.reserve(room_for(proof.siblings.len()))?;
    let before = out.len();
    match write_lines(name, claim, proof, out) {
        Ok(()) => Ok(()),
        Err(Memory) => {
            out.truncate(before);
            Err(Memory)
        }
    }
}

// About as many bytes as a block with this many siblings has, so that the text doesn't grow line by line.
fn room_for(siblings: u64) -> u64 {
    siblings.saturating_add(4).saturating_mul(70)
}

fn write_lines(
    name: &[u8],
    claim: Option<&[u8]>,
    proof: &Proof,
    out: &mut Bytes,
) -> Result<(), Memory>
    ensures ok { OnOk result (out.new ≡ out.old ++ proof_lines name.now (option_copied claim.entry) proof.now) }
    ensures err { OnErr result (Extends out.old out.new) }
{
    write_hex_line(b"name ", name, out)?;
    write_claim(claim, out)?;
    write_leaf(&proof.leaf, out)?;
    write_sides(proof.siblings.as_slice(), out)
}

/// Appends the line of a claim.
fn write_claim(claim: Option<&[u8]>, out: &mut Bytes) -> Result<(), Memory>
    ensures ok { OnOk result (out.new ≡ out.old ++ line_text (codes "claim" ∷ claim_word (option_copied claim.entry) ∷ [])) }
    ensures err { OnErr result (Extends out.old out.new) }
{
    match claim {
        Some(value) => write_hex_line(b"claim =", value, out),
        None => out.append(b"claim none\n"),
    }
}

/// Appends the line of a leaf.
fn write_leaf(leaf: &Option<(Key, Hash)>, out: &mut Bytes) -> Result<(), Memory>
    ensures ok { OnOk result (out.new ≡ out.old ++ line_text (codes "leaf" ∷ leaf_words leaf.now)) }
    ensures err { OnErr result (Extends out.old out.new) }
{
    match leaf {
        Some(leaf) => {
            write_hex(b"leaf ", &leaf.0, out)?;
            write_hex_line(b" ", &leaf.1, out)
        }
        None => out.append(b"leaf none\n"),
    }
}

/// Appends the lines of siblings.
pub fn write_sides(siblings: &[Hash], out: &mut Bytes) -> Result<(), Memory>
    ensures ok { OnOk result (out.new ≡ out.old ++ side_lines siblings.now) }
    ensures err { OnErr result (Extends out.old out.new) }
{
    for i in 0..siblings.len() {
        write_side(&siblings[i], out)?;
    }
    Ok(())
}

// The line of a sibling, with digits in place of those of its hash.
const SIDE: &[u8; 70] = b"side 0000000000000000000000000000000000000000000000000000000000000000\n";

/// Appends the line of a sibling, as one piece.
fn write_side(sibling: &Hash, out: &mut Bytes) -> Result<(), Memory>
    ensures ok { OnOk result (out.new ≡ out.old ++ line_text (codes "side" ∷ encode_lower sibling.now ∷ [])) }
    ensures err { OnErr result (out.new ≡ out.old) }
{
    let mut line = *SIDE;
    if encode_to_slice(&sibling[..], &mut line[5..69]).is_err() {
        unreachable!();
    }
    out.append(&line)
}

/// Appends a label and bytes in hexadecimal, and ends the line.
pub fn write_hex_line(label: &[u8], bytes: &[u8], out: &mut Bytes) -> Result<(), Memory>
    ensures ok { OnOk result (out.new ≡ out.old ++ (label.now ++ (encode_lower bytes.now ++ 10 ∷ []))) }
    ensures err { OnErr result (Extends out.old out.new) }
{
    write_hex(label, bytes, out)?;
    out.push(b'\n')
}
