// Numbers are written in decimal, and bytes in hexadecimal with lower case digits.
ghost use Rattle.std.specs.Prelude.{◌≡◌, ◌≤◌, ◌++◌, length, decimal, OnOk, OnErr};
ghost use Rattle.hex.specs.Hex.{encode_lower};
ghost use Rattle.jf_text.specs.Words.{Extends};

use hex::encode_to_slice;
use itoa::Buffer;
use jf_path::{Bytes, Memory};

// The most bytes that are written in one piece.
const PART: usize = 32;

/// Appends a label and a number in decimal. If memory runs out, the text that was there is unchanged, perhaps with part
/// of the new text after it.
pub fn write_number(label: &[u8], number: u64, out: &mut Bytes) -> Result<(), Memory>
    ensures ok { OnOk result (out.new ≡ out.old ++ (label.now ++ decimal number)) }
    ensures err { OnErr result (Extends out.old out.new) }
{
    let mut text = Buffer::new();
    out.append(label)?;
    out.append(text.format(number).as_bytes())
}

/// Appends a label and bytes in hexadecimal. If memory runs out, the text that was there is unchanged, perhaps with
/// part of the new text after it.
pub fn write_hex(label: &[u8], bytes: &[u8], out: &mut Bytes) -> Result<(), Memory>
    ensures ok { OnOk result (out.new ≡ out.old ++ (label.now ++ encode_lower bytes.now)) }
    ensures err { OnErr result (Extends out.old out.new) }
{
    out.append(label)?;
    let mut start = 0;
    'parts: while start < bytes.len() {
        let end = bytes.len().min(start + PART);
        write_part(&bytes[start..end], out)?;
        start = end;
    }
    Ok(())
}

// Appends at most 32 bytes in hexadecimal, as one piece.
fn write_part(bytes: &[u8], out: &mut Bytes) -> Result<(), Memory>
    requires { length bytes.now ≤ 32 }
    ensures ok { OnOk result (out.new ≡ out.old ++ encode_lower bytes.now) }
    ensures err { OnErr result (out.new ≡ out.old) }
{
    let mut digits = [0; 2 * PART];
    let text = &mut digits[..2 * bytes.len()];
    if encode_to_slice(bytes, text).is_err() {
        unreachable!();
    }
    out.append(text)
}
