// Inputs as long as no proof block is.
use crate::replies::{HONEST, TWO, parts_in_a_row};
use jf_ask::LookupFault;
use jf_io::{MemSink, MemSource, Source, USUAL_PIECE};
use jf_judge::{Judged, judge_reply};
use jf_path::{Bytes, Memory};
use jf_text::hash_of;
use std::alloc::Global;
use std::test::Fail;

const PADDING: [u8; 1_000] = [b'x'; 1_000];

// How long an input is, and how many bytes are taken of it, at most 65,536 in a call.
const LENGTHS: &[(u64, u64)] = &[
    (2_210_260, 2_210_260),
    (2_210_261, 2_210_261),
    (2_400_000, 34 * 65_536),
];

// An honest reply and further bytes after it, so many in all.
fn padded_reply(alloc: Global, size: u64) -> Result<Bytes, Memory> {
    let mut text = parts_in_a_row(alloc, HONEST)?;
    let missing = size.saturating_sub(text.len());
    for _ in 0..missing / 1_000 {
        text.append(&PADDING)?;
    }
    text.append(&PADDING[..(missing % 1_000) as usize])?;
    Ok(text)
}

fn is_refused(alloc: Global, input: Bytes, taken: u64) -> Result<(), Fail> {
    let Some(root) = hash_of(TWO.as_bytes()) else {
        return Err(Fail::new("this is no root"));
    };
    let mut source = MemSource::new(input, USUAL_PIECE, Vec::new(alloc));
    let mut sink = MemSink::new(alloc, 100, 100, Vec::new(alloc))?;
    let how = judge_reply(alloc, &root, b"a", &mut source, &mut sink);
    if how == Judged::Refused(LookupFault::NoBlock)
        && sink.text() == b"refused 6\n".as_slice()
        && source.taken_count() == taken
    {
        Ok(())
    } else {
        Err(Fail::new("a long input is judged otherwise"))
    }
}

#[test]
fn long_inputs_are_refused(rt: HostRuntime) -> Result<(), Fail> {
    for (size, taken) in LENGTHS {
        let input = padded_reply(rt.alloc(), *size)?;
        is_refused(rt.alloc(), input, *taken)?;
    }
    Ok(())
}
