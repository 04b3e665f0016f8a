// The puts of a text, read by several workers.
use jf_hash::key_of;
use jf_join::Workers;
use jf_path::{Bytes, Memory};
use jf_prepare::{PreparedLines, read_puts};
use std::alloc::Global;
use std::test::Fail;
use std::thread::Threads;

// Lines, and of each that is a put the name and the value.
const LINES: &[(&[u8], Option<(&[u8], &[u8])>)] = &[
    (b"put 61 =31", Some((b"a", b"1"))),
    (b"get head 61", None),
    (b"put 6263 =", Some((b"bc", b""))),
    (b"put 61 =31\r", None),
    (b"put 61 31", None),
    (b"del 61", None),
    (b"", None),
    (b"put 64 =3435", Some((b"d", b"45"))),
];

// The lines stand so often in the text. Behind them comes a put that isn't finished.
const ROUNDS: usize = 300;

fn text_of(alloc: Global) -> Result<Bytes, Fail> {
    let mut text = Bytes::new(alloc);
    for _ in 0..ROUNDS {
        for row in LINES {
            text.append(row.0)?;
            text.push(b'\n')?;
        }
    }
    text.append(b"put 65 =35")?;
    Ok(text)
}

// All lists in one, the last first.
fn joined(alloc: Global, lists: &[PreparedLines]) -> Result<PreparedLines, Memory> {
    let mut all = PreparedLines::with_room_for(alloc, lists)?;
    for list in lists.iter().rev() {
        all.append(list)?;
    }
    Ok(all)
}

// Whether this line is the next, and its text the key of the name and then the value.
fn is_next(puts: &PreparedLines, line: &[u8], name: &[u8], value: &[u8]) -> bool {
    let Some((found, text)) = puts.first() else {
        return false;
    };
    let key = key_of(name);
    found == line
        && text.starts_with(&key)
        && text.ends_with(value)
        && text.len() == 32 + value.len()
}

// Whether the puts among the lines come next, each once. They are taken away.
fn go_on_with_puts(puts: &mut PreparedLines) -> bool {
    for (line, put) in LINES {
        if let Some((name, value)) = put {
            if !is_next(puts, line, name, value) {
                return false;
            }
            puts.drop_first();
        }
    }
    true
}

// Whether the text's puts are read, all of them in order and no other line.
fn reads_puts<H: Threads + Sync>(
    rt: &H,
    alloc: Global,
    text: &[u8],
    workers: u64,
) -> Result<bool, Fail> {
    let Some(workers) = Workers::new(workers) else {
        return Ok(false);
    };
    let lists = read_puts(rt, alloc, text, workers)?;
    let mut puts = joined(alloc, &lists)?;
    for _ in 0..ROUNDS {
        if !go_on_with_puts(&mut puts) {
            return Ok(false);
        }
    }
    Ok(puts.first().is_none())
}

const WORKERS: &[u64] = &[1, 2, 4, 64];

#[test]
fn reads_each_put(rt: HostRuntime) -> Result<(), Fail> {
    let text = text_of(rt.alloc())?;
    for workers in WORKERS {
        assert!(rt;
            reads_puts(&rt, rt.alloc(), text.as_slice(), *workers)?,
            "by {workers}"
        );
    }
    Ok(())
}

// A text with fewer bytes than a part has, and one without a line.
#[test]
fn reads_short_texts(rt: HostRuntime) -> Result<(), Fail> {
    let alloc = rt.alloc();
    let Some(workers) = Workers::new(4) else {
        return Err(Fail::new("no number of workers"));
    };
    let lists = read_puts(&rt, alloc, b"put 61 =31\nput 62 =32", workers)?;
    let mut puts = joined(alloc, &lists)?;
    assert!(rt; is_next(&puts, b"put 61 =31", b"a", b"1"));
    puts.drop_first();
    assert!(rt; puts.first().is_none());
    assert!(rt; read_puts(&rt, alloc, b"", workers)?.is_empty());
    Ok(())
}
