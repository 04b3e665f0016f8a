// Inputs, and the scripts that they are cut into.
use crate::sources::source_of;
use jf_io::MemSource;
use jf_path::Bytes;
use jf_serve::read_scripts;
use std::alloc::Global;
use std::test::Fail;

const INPUTS: &[(&[u8], &[&[u8]])] = &[
    (b"", &[b""]),
    (b"\n", &[b"\n"]),
    (b"session", &[b""]),
    (b"session\n", &[b""]),
    (b"session\nsession", &[b"", b""]),
    (b"session\n\nsession\n", &[b"\n", b""]),
    (b"put 61 =31\ncommit", &[b"put 61 =31\ncommit"]),
    (
        b"put 61 =31\nsession\nget head 61\n",
        &[b"put 61 =31\n", b"get head 61\n"],
    ),
    (
        b"session\nput 61 =31\ncommit\nsession\nget head 61",
        &[b"put 61 =31\ncommit\n", b"get head 61"],
    ),
    (
        b"\nsession\nsession\na\n\nb\nsession",
        &[b"\n", b"", b"a\n\nb\n", b""],
    ),
    (
        b"session \nsessions\n session\nSession\nsessio",
        &[b"session \nsessions\n session\nSession\nsessio"],
    ),
    (b"session\r\nsession\n", &[b"session\r\n", b""]),
];

// Whether the scripts are these.
fn are(scripts: &[Bytes], wanted: &[&[u8]]) -> bool {
    if scripts.len() != wanted.len() {
        return false;
    }
    for i in 0..wanted.len() {
        if scripts[i].as_slice() != wanted[i] {
            return false;
        }
    }
    true
}

// Whether an input, in pieces of at most `piece` bytes, is cut into these scripts.
fn is_cut(alloc: Global, input: &[u8], piece: usize, wanted: &[&[u8]]) -> Result<bool, Fail> {
    let mut source = source_of(alloc, input, piece)?;
    let scripts = read_scripts::<MemSource>(alloc, &mut source)?;
    Ok(scripts.len() == wanted.len() as u64 && are(scripts.as_slice(), wanted))
}

fn are_cut(alloc: Global, piece: usize) -> Result<bool, Fail> {
    for (input, wanted) in INPUTS {
        if !is_cut(alloc, input, piece, wanted)? {
            return Ok(false);
        }
    }
    Ok(true)
}

const PIECES: &[usize] = &[1, 7, 65_536];

#[test]
fn cuts_inputs_at_session_lines(rt: HostRuntime) -> Result<(), Fail> {
    for piece in PIECES {
        assert!(rt; are_cut(rt.alloc(), *piece)?, "by {piece}");
    }
    Ok(())
}
