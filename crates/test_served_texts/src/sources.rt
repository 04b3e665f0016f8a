// Sources of the inputs that are cut, and what is read of one that fails.
use jf_io::{MemSource, Source};
use jf_path::Bytes;
use jf_serve::{InputFault, Scripts, read_scripts};
use std::alloc::Global;
use std::test::Fail;

/// A source of these bytes, in pieces of at most `piece` bytes. No call fails.
pub fn source_of(alloc: Global, bytes: &[u8], piece: usize) -> Result<Box<MemSource>, Fail> {
    let source = MemSource::new(Bytes::copy_of(alloc, bytes)?, piece.max(1), Vec::new(alloc));
    Ok(Box::new(alloc, source)?)
}

/// Why no scripts were read, if none were.
pub fn fault_of(read: &Result<Scripts, InputFault>) -> Option<InputFault> {
    match read {
        Ok(_) => None,
        Err(why) => Some(*why),
    }
}

// Why no scripts are read if call number `failing` of the source fails, and how many of its calls failed then.
fn read_with_fault(alloc: Global, failing: u64) -> Result<(Option<InputFault>, u64), Fail> {
    let failing = [failing].to_vec(alloc)?;
    let source = MemSource::new(Bytes::copy_of(alloc, b"a\nsession\nb")?, 4, failing);
    let mut source = Box::new(alloc, source)?;
    let read = read_scripts::<MemSource>(alloc, &mut source);
    Ok((fault_of(&read), source.faults()))
}

// Three calls give the bytes, and the fourth says that there are no more.
#[test]
fn fails_with_each_call_of_the_source(rt: HostRuntime) -> Result<(), Fail> {
    for failing in 0..4 {
        assert!(rt;
            read_with_fault(rt.alloc(), failing)? == (Some(InputFault::ReadFault), 1),
            "{failing}"
        );
    }
    assert!(rt; read_with_fault(rt.alloc(), 4)? == (None, 0));
    Ok(())
}
