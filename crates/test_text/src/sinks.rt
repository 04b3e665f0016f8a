// Sinks: in memory, with enough room and with too little; and over writers, some of which take little or fail.
use jf_io::{IoFailed, MemSink, Sink, StdSink, put_all};
use std::alloc::Global;
use std::io::{self, ErrorKind, Write};
use std::test::Fail;

// A sink with this room that takes at most 3 bytes in a call, and whose call number `failing` fails.
fn sink_of(alloc: Global, room: u64, failing: u64) -> Result<Box<MemSink>, Fail> {
    let failing = [failing].to_vec(alloc)?;
    let sink = MemSink::new(alloc, 3, room, failing)?;
    Ok(Box::new(alloc, sink)?)
}

// What is put, what the call returns, and the text and the number of faults after it.
type Put = (&'static [u8], Result<usize, IoFailed>, &'static [u8], u64);

const PUTS: &[Put] = &[
    (b"abcd", Ok(3), b"abc", 0),
    (b"d", Err(IoFailed), b"abc", 1),
    (b"defg", Ok(2), b"abcde", 1),
    (b"f", Err(IoFailed), b"abcde", 2),
];

fn puts(sink: &mut MemSink, put: Put) -> bool {
    let (bytes, want, text, faults) = put;
    !bytes.is_empty() && sink.put(bytes) == want && sink.text() == text && sink.faults() == faults
}

#[test]
fn takes_pieces_until_the_room_is_used_up(rt: HostRuntime) -> Result<(), Fail> {
    let mut sink = sink_of(rt.alloc(), 5, 1)?;
    for put in PUTS {
        assert!(rt; puts(&mut sink, *put), "{put:?}");
    }
    Ok(())
}

// Whether putting all of `abcdefg` into a sink with this room and this failing call returns `want`, with this text
// after it.
fn is_put(
    alloc: Global,
    room: u64,
    failing: u64,
    want: Result<(), IoFailed>,
    text: &[u8],
) -> Result<bool, Fail> {
    let mut sink = sink_of(alloc, room, failing)?;
    Ok(put_all::<MemSink>(&mut sink, b"abcdefg") == want && sink.text() == text)
}

#[test]
fn puts_all_or_a_front(rt: HostRuntime) -> Result<(), Fail> {
    let alloc = rt.alloc();
    assert!(rt; is_put(alloc, 7, 9, Ok(()), b"abcdefg")?);
    assert!(rt; is_put(alloc, 4, 9, Err(IoFailed), b"abcd")?);
    assert!(rt; is_put(alloc, 7, 0, Err(IoFailed), b"")?);
    assert!(rt; is_put(alloc, 7, 2, Err(IoFailed), b"abcdef")?);
    Ok(())
}

// A writer that takes at most 2 bytes a write, and `room` bytes in all. Signals interrupt each write and flush once.
#[derive(Drop)]
struct Narrow {
    room: usize,
    interrupted: bool,
    flushes: bool,
}

impl Narrow {
    fn interrupt(&mut self) -> io::Result<()> {
        self.interrupted = !self.interrupted;
        if self.interrupted {
            return Err(io::Error::from(ErrorKind::Interrupted));
        }
        Ok(())
    }
}

impl Write for Narrow {
    fn write(&mut self, buf: &[u8]) -> io::Result<usize> {
        self.interrupt()?;
        let count = buf.len().min(2).min(self.room);
        self.room -= count;
        Ok(count)
    }

    fn flush(&mut self) -> io::Result<()> {
        self.interrupt()?;
        if self.flushes {
            Ok(())
        } else {
            Err(io::Error::from(ErrorKind::BrokenPipe))
        }
    }
}

// Puts three texts into a sink, and returns its number of faults.
fn put_three<K: Sink>(sink: &mut K) -> Result<u64, IoFailed> {
    put_all(sink, b"abc")?;
    put_all(sink, b"")?;
    put_all(sink, b"de")?;
    Ok(sink.faults())
}

#[test]
fn hands_all_bytes_to_the_writer(rt: HostRuntime) -> Result<(), Fail> {
    let mut text = Vec::new(rt.alloc());
    assert!(rt; put_three(&mut StdSink::new(&mut text)) == Ok(0));
    assert!(rt; text.as_slice() == b"abcde".as_slice());
    Ok(())
}

// What putting five bytes into a writer with this room returns, and the number of faults. `flushes` says whether its
// flush succeeds.
fn put_five(room: usize, flushes: bool) -> (Result<(), IoFailed>, u64) {
    let mut sink = StdSink::new(Narrow {
        room,
        interrupted: false,
        flushes,
    });
    let outcome = put_all(&mut sink, b"abcde");
    (outcome, sink.faults())
}

#[test]
fn counts_a_write_of_no_byte_and_a_failed_flush(rt: HostRuntime) {
    assert!(rt; put_five(5, true) == (Ok(()), 0));
    assert!(rt; put_five(3, true) == (Err(IoFailed), 1));
    assert!(rt; put_five(5, false) == (Err(IoFailed), 1));
}
