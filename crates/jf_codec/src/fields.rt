// A field is read from the front of bytes and returned with the bytes after it, or added at the end of bytes. Numbers
// have their highest byte first.
ghost use Rattle.std.specs.Prelude.{◌≡◌, ◌++◌, ℕ, List, IfSome, None, OnOk, OnErr};
ghost use Rattle.jf_path.specs.Numbers.{two_bytes, four_bytes, eight_bytes};
ghost use Rattle.jf_codec.specs.Reading.{Reads, bytes_at, two_at, four_at, eight_at};

use crate::fault::CodecFault;
use byteorder::{BigEndian, ByteOrder};
use jf_path::{Bytes, Key, Memory};

/// The number in the first two bytes, and the bytes after it. `Short` if there are fewer bytes.
#[tactic(auto, unfolding(crate::specs::Reading::two_at))]
pub fn u16_at(bytes: &[u8]) -> Result<(u16, &[u8]), CodecFault>
    ensures { Reads (λ x. (x.0, x.1.now)) result (two_at bytes.now) }
{
    let Some((number, rest)) = bytes.split_first_chunk::<2>() else {
        return Err(CodecFault::Short);
    };
    Ok((u16::from_be_bytes(*number), rest))
}

/// The number in the first four bytes, and the bytes after it. `Short` if there are fewer bytes.
#[tactic(auto, unfolding(crate::specs::Reading::four_at))]
pub fn u32_at(bytes: &[u8]) -> Result<(u32, &[u8]), CodecFault>
    ensures { Reads (λ x. (x.0, x.1.now)) result (four_at bytes.now) }
{
    let Some((number, rest)) = bytes.split_first_chunk::<4>() else {
        return Err(CodecFault::Short);
    };
    Ok((u32::from_be_bytes(*number), rest))
}

/// The number in the first eight bytes, and the bytes after it. `Short` if there are fewer bytes.
#[tactic(auto, unfolding(crate::specs::Reading::eight_at))]
pub fn u64_at(bytes: &[u8]) -> Result<(u64, &[u8]), CodecFault>
    ensures { Reads (λ x. (x.0, x.1.now)) result (eight_at bytes.now) }
{
    let Some((number, rest)) = bytes.split_first_chunk::<8>() else {
        return Err(CodecFault::Short);
    };
    Ok((u64::from_be_bytes(*number), rest))
}

/// The key or hash in the first 32 bytes, and the bytes after it. `Short` if there are fewer bytes.
pub fn key_at(bytes: &[u8]) -> Result<(&Key, &[u8]), CodecFault>
    ensures { Reads (λ x. (x.0.now, x.1.now)) result (bytes_at 32 bytes.now) }
{
    bytes.split_first_chunk::<32>().ok_or(CodecFault::Short)
}

/// The first `count` bytes, and the bytes after them. `Short` if there are fewer bytes.
pub fn front_of(count: usize, bytes: &[u8]) -> Result<(&[u8], &[u8]), CodecFault>
    ensures { Reads (λ x. (x.0.now, x.1.now)) result (bytes_at count bytes.now) }
{
    if bytes.len() < count {
        return Err(CodecFault::Short);
    }
    Ok(bytes.split_at(count))
}

/// The bytes after `front`, if bytes begin with it.
pub fn strip_front<'a>(bytes: &'a [u8], front: &[u8]) -> Option<&'a [u8]>
    // The bytes are the front, and then the result.
    ensures found { IfSome result (λ rest. bytes.now ≡ front.now ++ rest.now) }
    // There is none only if the bytes don't begin with the front.
    ensures none { result ≡ None → (tail : List ℕ) → bytes.now ≡ front.now ++ tail → ⊥ }
{
    bytes.strip_prefix(front)
}

/// Adds a number in two bytes. If memory runs out, `out` is unchanged.
#[tactic(auto, unfolding(jf_path::specs::Numbers::two_bytes))]
pub fn put_u16(out: &mut Bytes, number: u16) -> Result<(), Memory>
    ensures ok { OnOk result (out.new ≡ out.old ++ two_bytes number) }
    ensures err { OnErr result (out.new ≡ out.old) }
{
    let mut bytes = [0; 2];
    BigEndian::write_u16(&mut bytes, number);
    out.append(&bytes)
}

/// Adds a number in four bytes. If memory runs out, `out` is unchanged.
#[tactic(auto, unfolding(jf_path::specs::Numbers::four_bytes))]
pub fn put_u32(out: &mut Bytes, number: u32) -> Result<(), Memory>
    ensures ok { OnOk result (out.new ≡ out.old ++ four_bytes number) }
    ensures err { OnErr result (out.new ≡ out.old) }
{
    let mut bytes = [0; 4];
    BigEndian::write_u32(&mut bytes, number);
    out.append(&bytes)
}

/// Adds a number in eight bytes. If memory runs out, `out` is unchanged.
#[tactic(auto, unfolding(jf_path::specs::Numbers::eight_bytes))]
pub fn put_u64(out: &mut Bytes, number: u64) -> Result<(), Memory>
    ensures ok { OnOk result (out.new ≡ out.old ++ eight_bytes number) }
    ensures err { OnErr result (out.new ≡ out.old) }
{
    let mut bytes = [0; 8];
    BigEndian::write_u64(&mut bytes, number);
    out.append(&bytes)
}
