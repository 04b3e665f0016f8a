// Inputs with as many sessions as there may be, and with more.
use crate::sources::{fault_of, source_of};
use jf_io::MemSource;
use jf_path::Bytes;
use jf_serve::{InputFault, read_scripts};
use std::alloc::Global;
use std::test::Fail;

// What an input begins with, how many session lines follow, and why it isn't cut into scripts.
type Row = (&'static [u8], u64, Option<InputFault>);

const ROWS: &[Row] = &[
    (b"", 16, None),
    (b"", 17, Some(InputFault::Full)),
    (b"a\n", 15, None),
    (b"a\n", 16, Some(InputFault::Full)),
    (b"session\na\n", 15, None),
    (b"session\na\n", 16, Some(InputFault::Full)),
    (b"", 1000, Some(InputFault::Full)),
];

fn input_of(alloc: Global, front: &[u8], sessions: u64) -> Result<Bytes, Fail> {
    let mut input = Bytes::copy_of(alloc, front)?;
    for _ in 0..sessions {
        input.append(b"session\n")?;
    }
    Ok(input)
}

fn fault_at(alloc: Global, row: Row) -> Result<Option<InputFault>, Fail> {
    let input = input_of(alloc, row.0, row.1)?;
    let mut source = source_of(alloc, input.as_slice(), 65_536)?;
    Ok(fault_of(&read_scripts::<MemSource>(alloc, &mut source)))
}

#[test]
fn refuses_a_seventeenth_session(rt: HostRuntime) -> Result<(), Fail> {
    for row in ROWS {
        assert!(rt; fault_at(rt.alloc(), *row)? == row.2, "{row:?}");
    }
    Ok(())
}
