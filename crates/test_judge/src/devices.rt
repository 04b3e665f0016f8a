// Faults of source and sink.
use crate::replies::{HONEST, TWO, parts_in_a_row};
use jf_io::{MemSink, MemSource};
use jf_judge::{Judged, judge_reply};
use jf_path::Bytes;
use jf_text::hash_of;
use std::alloc::Global;
use std::test::Fail;

// Which calls of the source fail, how many bytes the sink has room for, which of its calls fail, how judging ends, and what
// the sink then has.
const FAULTS: &[(&[u64], u64, &[u64], Judged, &str)] = &[
    (&[0], 100, &[], Judged::ReadFault, ""),
    (&[2], 100, &[], Judged::ReadFault, ""),
    (&[], 100, &[0], Judged::WriteFault, ""),
    (&[], 100, &[2], Judged::WriteFault, "value "),
    (&[], 8, &[], Judged::WriteFault, "value =3"),
    (&[2], 0, &[0], Judged::ReadFault, ""),
    (&[], 10, &[], Judged::Shown, "value =31\n"),
];

fn ends_so(
    alloc: Global,
    mut source: MemSource,
    mut sink: MemSink,
    how: Judged,
    text: &str,
) -> Result<(), Fail> {
    let Some(root) = hash_of(TWO.as_bytes()) else {
        return Err(Fail::new("this is no root"));
    };
    if judge_reply(alloc, &root, b"a", &mut source, &mut sink) == how
        && sink.text() == text.as_bytes()
    {
        Ok(())
    } else {
        Err(Fail::new("a fault ends otherwise"))
    }
}

#[test]
fn faults_end_judging(rt: HostRuntime) -> Result<(), Fail> {
    let alloc = rt.alloc();
    for (takes, room, puts, how, text) in FAULTS {
        let source = MemSource::new(parts_in_a_row(alloc, HONEST)?, 200, takes.to_vec(alloc)?);
        let sink = MemSink::new(alloc, 3, *room, puts.to_vec(alloc)?)?;
        ends_so(alloc, source, sink, *how, text)?;
    }
    Ok(())
}
