// Lines of input, whole and cut short.
use jf_io::{FetchFault, LineReader, MAX_PIECE, MemSource, Source};
use jf_path::Bytes;
use std::alloc::Global;
use std::test::Fail;

const LIMIT: usize = 8_500;

// A source of these bytes, in pieces of at most `piece` bytes, whose call number `failing` fails.
fn source_of(
    alloc: Global,
    bytes: &[u8],
    piece: usize,
    failing: u64,
) -> Result<Box<MemSource>, Fail> {
    let failing = [failing].to_vec(alloc)?;
    let source = MemSource::new(Bytes::copy_of(alloc, bytes)?, piece.max(1), failing);
    Ok(Box::new(alloc, source)?)
}

// Whether the next line is this one, which is then dropped.
fn goes_on_with(reader: &mut LineReader, source: &mut MemSource, line: &[u8]) -> bool {
    let goes_on = reader.fetch(source) == Ok(true) && reader.line() == line;
    reader.advance();
    goes_on
}

// Whether there are no more lines.
fn is_at_end(reader: &mut LineReader, source: &mut MemSource) -> bool {
    reader.fetch(source) == Ok(false) && reader.line().is_empty()
}

// Whether these lines come, and no more after them.
fn ends_with(reader: &mut LineReader, source: &mut MemSource, lines: &[&[u8]]) -> bool {
    for line in lines {
        if !goes_on_with(reader, source, line) {
            return false;
        }
    }
    is_at_end(reader, source)
}

// Whether a text, in pieces of at most `piece` bytes, is read as these lines.
fn is_handed_on(alloc: Global, text: &[u8], piece: usize, lines: &[&[u8]]) -> Result<bool, Fail> {
    let mut source = source_of(alloc, text, piece, u64::MAX)?;
    let mut reader = LineReader::new(alloc, LIMIT, MAX_PIECE);
    Ok(ends_with(&mut reader, &mut source, lines))
}

const TEXTS: &[(&[u8], &[&[u8]])] = &[
    (b"", &[]),
    (b"\n", &[b""]),
    (b"one", &[b"one"]),
    (b"one\n\nthree\n", &[b"one", b"", b"three"]),
    (b"one two\r\nthree", &[b"one two\r", b"three"]),
];

fn are_handed_on(alloc: Global, piece: usize) -> Result<bool, Fail> {
    for (text, lines) in TEXTS {
        if !is_handed_on(alloc, text, piece, lines)? {
            return Ok(false);
        }
    }
    Ok(true)
}

const SMALL_PIECES: &[usize] = &[1, 3, 11];

#[test]
fn hands_lines_on(rt: HostRuntime) -> Result<(), Fail> {
    for piece in SMALL_PIECES {
        assert!(rt; are_handed_on(rt.alloc(), *piece)?, "by {piece}");
    }
    Ok(())
}

// Whether a fetch meets a fault while this line is unfinished.
fn fails_within(reader: &mut LineReader, source: &mut MemSource, line: &[u8]) -> bool {
    reader.fetch(source) == Err(FetchFault::ReadFault) && reader.line() == line && reader.is_last()
}

// Whether a fetch meets a fault with this much of a line, and these lines come after the fault.
fn goes_on(alloc: Global, source: &mut MemSource, front: &[u8], lines: &[&[u8]]) -> bool {
    let mut reader = LineReader::new(alloc, LIMIT, MAX_PIECE);
    fails_within(&mut reader, source, front) && ends_with(&mut reader, source, lines)
}

#[test]
fn goes_on_after_a_fault(rt: HostRuntime) -> Result<(), Fail> {
    let mut source = source_of(rt.alloc(), b"abcdef\ngh", 4, 1)?;
    assert!(rt; goes_on(rt.alloc(), &mut source, b"abcd", &[b"abcdef", b"gh"]));
    Ok(())
}

// The bytes `front`, then a line of `len` bytes, then the bytes `back`.
fn long_text(alloc: Global, front: &[u8], len: usize, back: &[u8]) -> Result<Vec<u8>, Fail> {
    let mut text = front.to_vec(alloc)?;
    for i in 0..len {
        text.push(b"abcdefg"[i % 7])?;
    }
    text.extend_from_slice(back)?;
    Ok(text)
}

// Whether a line of `len` bytes is read whole, before another and as the last one.
fn is_held_whole(alloc: Global, len: usize, piece: usize) -> Result<bool, Fail> {
    let line = long_text(alloc, b"", len, b"")?;
    let text = long_text(alloc, b"", len, b"\nb")?;
    Ok(
        is_handed_on(alloc, &text, piece, &[&line, b"b"])?
            && is_handed_on(alloc, &line, piece, &[&line])?,
    )
}

fn are_held_whole(alloc: Global, piece: usize) -> Result<bool, Fail> {
    Ok(is_held_whole(alloc, 1, piece)? && is_held_whole(alloc, LIMIT, piece)?)
}

const PIECES: &[usize] = &[1, 7, 4_096, usize::MAX];

#[test]
fn holds_lines_whole_up_to_the_limit(rt: HostRuntime) -> Result<(), Fail> {
    for piece in PIECES {
        assert!(rt; are_held_whole(rt.alloc(), *piece)?, "by {piece}");
    }
    Ok(())
}

// Whether only the front of a line of `len` bytes is read, and then the next lines.
fn is_skipped(alloc: Global, len: usize, piece: usize) -> Result<bool, Fail> {
    let front = long_text(alloc, b"", LIMIT + 1, b"")?;
    let text = long_text(alloc, b"", len, b"\nbehind\n\nlast")?;
    is_handed_on(alloc, &text, piece, &[&front, b"behind", b"", b"last"])
}

const LONGER: &[(usize, usize)] = &[
    (LIMIT + 1, 1),
    (LIMIT + 1, 7),
    (LIMIT + 1, 4_096),
    (9_000, 1),
    (200_000, 7),
    (200_000, 4_096),
    (200_000, usize::MAX),
];

#[test]
fn skips_the_rest_of_a_longer_line(rt: HostRuntime) -> Result<(), Fail> {
    for (len, piece) in LONGER {
        assert!(rt;
            is_skipped(rt.alloc(), *len, *piece)?,
            "{len} bytes, by {piece}"
        );
    }
    Ok(())
}

// Whether the front of a line over the limit is held, without a line feed.
fn is_last_and_longer(reader: &mut LineReader, source: &mut MemSource) -> bool {
    reader.fetch(source) == Ok(true) && reader.line().len() == LIMIT + 1 && reader.is_last()
}

// Whether a last line of `len` bytes, without a line feed, is skipped.
fn is_skipped_at_end(alloc: Global, len: usize, piece: usize) -> Result<bool, Fail> {
    let text = long_text(alloc, b"first\n", len, b"")?;
    let mut source = source_of(alloc, &text, piece, u64::MAX)?;
    let mut reader = LineReader::new(alloc, LIMIT, MAX_PIECE);
    if !goes_on_with(&mut reader, &mut source, b"first")
        || !is_last_and_longer(&mut reader, &mut source)
    {
        return Ok(false);
    }
    reader.advance();
    Ok(is_at_end(&mut reader, &mut source))
}

const LONGER_AT_END: &[(usize, usize)] = &[
    (LIMIT + 1, 1),
    (200_000, 7),
    (200_000, 4_096),
    (4_194_304, 65_536),
];

#[test]
fn skips_a_line_without_line_feed(rt: HostRuntime) -> Result<(), Fail> {
    for (len, piece) in LONGER_AT_END {
        assert!(rt;
            is_skipped_at_end(rt.alloc(), *len, *piece)?,
            "{len} bytes, by {piece}"
        );
    }
    Ok(())
}

// A source of a line of 200,000 bytes and another after it, which fails within the first one.
fn faulty_source(alloc: Global) -> Result<Box<MemSource>, Fail> {
    let text = long_text(alloc, b"", 200_000, b"\nbehind")?;
    source_of(alloc, &text, 4_096, 10)
}

fn goes_on_after_it(alloc: Global) -> Result<bool, Fail> {
    let front = long_text(alloc, b"", LIMIT + 1, b"")?;
    let mut source = faulty_source(alloc)?;
    Ok(goes_on(alloc, &mut source, &front, &[&front, b"behind"]))
}

#[test]
fn goes_on_after_a_fault_in_a_skipped_line(rt: HostRuntime) -> Result<(), Fail> {
    assert!(rt; goes_on_after_it(rt.alloc())?);
    Ok(())
}

const LINES: &[u8] = b"one\n\nthree\nfour";

// A reader's piece, and how many bytes of these lines it has taken once each of them is found.
const TAKEN: &[(usize, &[u64])] = &[
    (1, &[4, 5, 11, 15]),
    (4, &[4, 8, 12, 15]),
    (5, &[5, 5, 15, 15]),
    (15, &[15, 15, 15, 15]),
    (MAX_PIECE, &[15, 15, 15, 15]),
];

// Whether a line comes once this many bytes are taken, which is then dropped.
fn comes_after(reader: &mut LineReader, source: &mut MemSource, taken: u64) -> bool {
    let comes = reader.fetch(source) == Ok(true) && source.taken_count() == taken;
    reader.advance();
    comes
}

// Whether a reader with this piece has taken so many bytes at each line of a source that would give all at once.
fn takes_pieces(alloc: Global, piece: usize, taken: &[u64]) -> Result<bool, Fail> {
    let mut source = source_of(alloc, LINES, usize::MAX, u64::MAX)?;
    let mut reader = LineReader::new(alloc, LIMIT, piece.max(1).min(MAX_PIECE));
    for count in taken {
        if !comes_after(&mut reader, &mut source, *count) {
            return Ok(false);
        }
    }
    Ok(true)
}

#[test]
fn takes_no_more_than_a_piece_beyond_a_line(rt: HostRuntime) -> Result<(), Fail> {
    for (piece, taken) in TAKEN {
        assert!(rt; takes_pieces(rt.alloc(), *piece, taken)?, "by {piece}");
    }
    Ok(())
}

// A text of so many lines of 16 bytes, each with its line feed.
fn many_lines(alloc: Global, count: usize) -> Result<Bytes, Fail> {
    let mut text = Bytes::new(alloc);
    for _ in 0..count {
        text.append(b"fifteen letters\n")?;
    }
    Ok(text)
}

// How many bytes a source that gives at most `piece` at a time has given once so many lines were taken.
fn given_after(alloc: Global, text: &[u8], piece: usize, lines: usize) -> Result<u64, Fail> {
    let mut source = source_of(alloc, text, piece, u64::MAX)?;
    let mut reader = LineReader::new(alloc, LIMIT, MAX_PIECE);
    for _ in 0..lines {
        if !goes_on_with(&mut reader, &mut source, b"fifteen letters") {
            return Ok(0);
        }
    }
    Ok(source.taken_count())
}

// The most that a source gives at a time, how many lines are taken, and how many bytes it has given then.
const GIVEN: &[(usize, usize, u64)] = &[
    (500_000, 1, 65_536),
    (500_000, 4_096, 65_536),
    (500_000, 4_097, 65_536 + 262_144),
    (20_000, 1_250, 20_000),
    (20_000, 1_251, 40_000),
    (65_536, 4_097, 131_072),
    (65_536, 8_193, 196_608),
];

#[test]
fn asks_for_more_of_who_gives_much(rt: HostRuntime) -> Result<(), Fail> {
    let text = many_lines(rt.alloc(), 25_000)?;
    for (piece, lines, given) in GIVEN {
        let found = given_after(rt.alloc(), text.as_slice(), *piece, *lines)?;
        assert!(rt; found == *given, "{lines} lines by {piece}");
    }
    Ok(())
}
