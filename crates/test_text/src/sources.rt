// Sources: in memory, in pieces and with failing calls; and over readers, some of which fail or are interrupted.
use jf_io::{IoFailed, MemSource, Source, StdSource};
use jf_path::Bytes;
use std::io::{self, ErrorKind, Read};
use std::test::Fail;

// The room for a take, what it returns, and the buffer and the counts of bytes and of faults after it.
type Take = (usize, Result<usize, IoFailed>, &'static [u8], u64, u64);

const TAKES: &[Take] = &[
    (4, Ok(3), b"abc\0", 3, 0),
    (4, Err(IoFailed), b"\0\0\0\0", 3, 1),
    (2, Ok(2), b"de\0\0", 5, 1),
    (4, Ok(2), b"fg\0\0", 7, 1),
    (4, Ok(0), b"\0\0\0\0", 7, 1),
    (4, Err(IoFailed), b"\0\0\0\0", 7, 2),
    (4, Ok(0), b"\0\0\0\0", 7, 2),
];

fn takes_piece(source: &mut MemSource, take: Take) -> bool {
    let (room, want, buffer, taken, faults) = take;
    let mut buf = [0; 4];
    if room == 0 || room > 4 {
        return false;
    }
    source.take(&mut buf[..room]) == want
        && buf.as_slice() == buffer
        && source.taken_count() == taken
        && source.faults() == faults
}

#[test]
fn gives_pieces_and_goes_on_after_a_listed_call(rt: HostRuntime) -> Result<(), Fail> {
    let bytes = Bytes::copy_of(rt.alloc(), b"abcdefg")?;
    let failing = [1, 5].to_vec(rt.alloc())?;
    let mut source = MemSource::new(bytes, 3, failing);
    for take in TAKES {
        assert!(rt; takes_piece(&mut source, *take), "{take:?}");
    }
    Ok(())
}

// The attempts of one read while signals interrupt it, as in `jf_io`.
const ATTEMPTS: u32 = 1_000;

// A reader whose first `interrupted` reads are interrupted by signals, and whose next reads are `abcd`, a fault and
// `abcd`.
#[derive(Drop)]
struct Faulty {
    interrupted: u32,
    reads: u8,
}

impl Read for Faulty {
    fn read(&mut self, buf: &mut [u8]) -> io::Result<usize> {
        if self.interrupted > 0 {
            self.interrupted -= 1;
            return Err(io::Error::from(ErrorKind::Interrupted));
        }
        self.reads = self.reads.saturating_add(1);
        if self.reads == 2 {
            return Err(io::Error::from(ErrorKind::ConnectionReset));
        }
        let mut bytes: &[u8] = b"abcd";
        bytes.read(buf)
    }
}

// A source over such a reader.
fn faulty_source(interrupted: u32) -> StdSource<Faulty> {
    StdSource::new(Faulty {
        interrupted,
        reads: 0,
    })
}

// Whether the next take returns this, and the counts of bytes and of faults are these after it.
fn takes<S: Source>(
    source: &mut S,
    want: Result<usize, IoFailed>,
    taken: u64,
    faults: u64,
) -> bool {
    source.take(&mut [0; 3]) == want && source.taken_count() == taken && source.faults() == faults
}

// Whether the next take gives `count` bytes, the buffer is `want` after it, and `taken` bytes were taken in all.
fn gives<S: Source>(source: &mut S, count: usize, want: [u8; 3], taken: u64) -> bool {
    let mut buf = [0; 3];
    source.take(&mut buf) == Ok(count)
        && buf == want
        && source.taken_count() == taken
        && source.faults() == 0
}

#[test]
fn gives_what_the_reader_gives(rt: HostRuntime) {
    let bytes: &[u8] = b"abcde";
    let mut source = StdSource::new(bytes);
    assert!(rt; gives(&mut source, 3, *b"abc", 3));
    assert!(rt; gives(&mut source, 2, *b"de\0", 5));
    assert!(rt; gives(&mut source, 0, [0; 3], 5));
    assert!(rt; gives(&mut source, 0, [0; 3], 5));
}

#[test]
fn fails_in_mid_stream_and_goes_on(rt: HostRuntime) {
    let mut source = faulty_source(2);
    assert!(rt; takes(&mut source, Ok(3), 3, 0));
    assert!(rt; takes(&mut source, Err(IoFailed), 3, 1));
    assert!(rt; takes(&mut source, Ok(3), 6, 1));
}

#[test]
fn gives_up_where_signals_never_cease(rt: HostRuntime) {
    assert!(rt; takes(&mut faulty_source(ATTEMPTS - 1), Ok(3), 3, 0));
    assert!(rt; takes(&mut faulty_source(ATTEMPTS), Err(IoFailed), 0, 1));
}
