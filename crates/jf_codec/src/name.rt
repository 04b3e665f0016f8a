// A name is a version in 8 bytes, a count of nibbles in one byte, and the nibbles, two a byte.
ghost use Rattle.std.specs.Prelude.{◌≡◌, ◌++◌, List, ℕ, drop, length, IfOk, OnOk, OnErr, Ok};
ghost use Rattle.jf_path.specs.Names.{IsName};
ghost use Rattle.jf_path.specs.declared.name.NodeName.{NodeName};
ghost use Rattle.jf_codec.specs.Adding.{Keeps};
ghost use Rattle.jf_codec.specs.Spelling.{name_bytes};
ghost use Rattle.jf_codec.specs.Reading.{Reads, path_at, name_at, reading_with_length};

use crate::fault::CodecFault;
use crate::fields::{front_of, put_u64, u64_at};
use jf_path::{Bytes, Memory, NibblePath, NodeName};
use std::alloc::Global;

// The path at the front of `bytes`: its count of nibbles, then the nibbles.
#[tactic(auto, unfolding(crate::specs::Reading::path_at, crate::specs::Reading::nibbles_at))]
fn path_of(bytes: &[u8]) -> Result<(NibblePath, &[u8]), CodecFault>
    ensures { Reads (λ x. (x.0, x.1.now)) result (path_at bytes.now) }
{
    let Some((count, rest)) = bytes.split_first() else {
        return Err(CodecFault::Short);
    };
    if *count > 64 {
        return Err(CodecFault::Path);
    }
    let packed = (*count as usize + 1) / 2;
    let (_, rest) = front_of(packed, rest)?;
    match NibblePath::from_bytes(&bytes[..packed + 1]) {
        Ok(path) => Ok((path, rest)),
        Err(_) => Err(CodecFault::Path),
    }
}

/// The name at the front of `bytes`, and the bytes after it. Otherwise the first fault from left to right: `Short` or
/// `Path`.
#[tactic(auto, unfolding(crate::specs::Reading::name_at))]
pub fn name_at(bytes: &[u8]) -> Result<(NodeName, &[u8]), CodecFault>
    ensures { Reads (λ x. (x.0, x.1.now)) result (name_at bytes.now) }
{
    let (version, rest) = u64_at(bytes)?;
    match path_of(rest) {
        Ok((path, rest)) => Ok((NodeName { version, path }, rest)),
        Err(fault) => Err(fault),
    }
}

// The name at the front of `bytes`, and its length in bytes.
fn measured_name(bytes: &[u8]) -> Result<(NodeName, usize), CodecFault>
    ensures { Reads (λ x. x) result (reading_with_length bytes.now (name_at bytes.now)) }
{
    match name_at(bytes) {
        Ok((name, rest)) => Ok((name, bytes.len() - rest.len())),
        Err(fault) => Err(fault),
    }
}

/// The name at the front of `bytes`, and its length in bytes. Otherwise the first fault from left to right: `Short` or
/// `Path`.
pub fn decode_name(bytes: &[u8]) -> Result<(NodeName, usize), CodecFault>
    ensures found { IfOk result (λ x. IsName x.0 × (bytes.now ≡ name_bytes x.0 ++ drop x.1 bytes.now) × (x.1 ≡ length (name_bytes x.0))) }
    ensures spelled { (name : NodeName) (rest : List ℕ) → IsName name → bytes.now ≡ name_bytes name ++ rest → result ≡ Ok (name, length (name_bytes name)) }
    ensures exact { Reads (λ x. x) result (reading_with_length bytes.now (name_at bytes.now)) }
{
    measured_name(bytes)
}

/// Adds the spelling of a name. If memory runs out, what was in `out` is unchanged, but a part of the name may follow.
#[tactic(auto, using(crate::proofs::Adding::keeps_same, crate::proofs::Adding::keeps_more))]
pub fn put_name(out: &mut Bytes, name: &NodeName) -> Result<(), Memory>
    ensures ok { OnOk result (out.new ≡ out.old ++ name_bytes name.now) }
    ensures err { OnErr result (Keeps out.old out.new) }
{
    put_u64(out, name.version)?;
    let mut path = [0; 33];
    let count = name.path.to_bytes(&mut path);
    out.append(&path[..count])
}

/// Appends the spelling of a name, at most 41 bytes. If memory runs out, `out` is unchanged.
pub fn encode_name(alloc: Global, name: &NodeName, out: &mut Bytes) -> Result<(), Memory>
    ensures ok { OnOk result (out.new ≡ out.old ++ name_bytes name.now) }
    ensures err { OnErr result (out.new ≡ out.old) }
{
    let mut text = Bytes::with_capacity(alloc, 41)?;
    put_name(&mut text, name)?;
    out.append(text.as_slice())
}
