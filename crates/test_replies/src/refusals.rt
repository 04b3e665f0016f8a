// Lines that are refused, each with its reply, and the lines after them.
use jf_play::play::{is_answered, is_answered_by, tells};
use jf_play::roots::with_roots;
use std::alloc::Global;
use std::sync::Wait;
use std::test::Fail;
use std::thread::Threads;

// Lines over a store of three versions, and their replies.
const FUTURE: &[(&str, &str)] = &[
    ("get v9 61", "3 no future 3\n"),
    ("root v9", "3 no future 3\n"),
    ("get v4 61", "3 no future 3\n"),
    ("root v4", "3 no future 3\n"),
    ("get v3 61", "3 ok none\n"),
    ("root v3", "3 ok root E\n"),
    ("get v0 61", "3 ok none\n"),
    ("get v18446744073709551615 61", "3 no future 3\n"),
    ("root v18446744073709551615", "3 no future 3\n"),
    ("get v18446744073709551616 61", "3 no syntax\n"),
    ("root v18446744073709551616", "3 no syntax\n"),
    ("get v00 61", "3 no syntax\n"),
    ("get v01 61", "3 no syntax\n"),
    ("get v 61", "3 no syntax\n"),
    ("root v-1", "3 no syntax\n"),
    ("prove v4 61", "3 no future 3\n"),
    ("chunk v4 0 1", "3 no future 3\n"),
    ("count v4", "3 no future 3\n"),
    ("nth v4 0", "3 no future 3\n"),
    ("pin 4", "3 no future 3\n"),
    ("pin 3", "3 ok pin 0\n"),
    ("prune 4", "3 no future 3\n"),
    ("prune 3", "4 ok prune 3 3\n"),
    ("prune 18446744073709551615", "3 no future 3\n"),
];

// Runs a line after three commits of nothing. Fails unless its reply is `want`.
fn is_told_at_3<H: Threads + Wait + Sync>(
    rt: &H,
    alloc: Global,
    line: &str,
    want: &str,
) -> Result<(), Fail> {
    let script = format!(in alloc; "commit\ncommit\ncommit\n{line}")?;
    let want = format!(in alloc; "1 ok commit 1 E\n2 ok commit 2 E\n3 ok commit 3 E\n{want}")?;
    is_answered_by(rt, alloc, script.as_str(), want.as_str())
}

#[test]
fn versions_above_the_head_are_future(rt: HostRuntime) -> Result<(), Fail> {
    let alloc = rt.alloc();
    for (line, want) in FUTURE {
        is_told_at_3(&rt, alloc, line, want)?;
    }
    Ok(())
}

const OUTSIDE: &[&[u8]] = &[
    // Lines outside the grammar.
    b"",
    b" ",
    b"session",
    b"put  61 =31",
    b"put 61 =31 ",
    b" put 61 =31",
    b"put\t61 =31",
    b"put 6 =31",
    b"put 61 =3A",
    b"put 6A =31",
    b"put 61 =3",
    b"put 61 31",
    b"put 61 = 31",
    b"put 61 ==31",
    b"put 61",
    b"put  =31",
    b"put 61 =31 =31",
    b"PUT 61 =31",
    b"put 61 =3g",
    b"put 61 =/0",
    b"del",
    b"del ",
    b"del 6",
    b"del 61 61",
    b"del 6:",
    b"commit ",
    b"commit head",
    b"Commit",
    b"get head",
    b"get head ",
    b"get 61 head",
    b"get head 61 ",
    b"get head 61 62",
    b"get Head 61",
    b"get v01 61",
    b"get 0 61",
    b"root",
    b"root ",
    b"root heads",
    b"root head head",
    b"root v",
    b"root v+1",
    // Bytes that are no text.
    b"root head\r",
    b"\r",
    b"root head\0",
    b"\0",
    b"root\xffhead",
    b"\xff\xfe\x80",
    b"get head \xc3\xa4",
    // Words that stand at another place, or a base that the command doesn't read.
    b"fork",
    b"fork v0",
    b"fork p0",
    b"fork f01",
    b"land 0",
    b"land head",
    b"drop",
    b"drop p0",
    b"prove f0 61",
    b"chunk f0 0 1",
    b"count",
    b"count f0",
    b"count head 0",
    b"nth head",
    b"nth f0 0",
    b"nth head 00",
    b"pin",
    b"pin v1",
    b"pin head",
    b"pin 18446744073709551616",
    b"unpin p0",
    b"unpin 00",
    b"prune",
    b"prune v0",
    b"prune -1",
    b"compact 2",
    b"status head",
    b"get p 61",
    b"get p01 61",
    b"root f",
    b"root p18446744073709551616",
];

// Runs a line between a `put` and its `commit`, and then reads the value of the `put`. Fails unless the replies are
// `want`.
fn is_between<H: Threads + Wait + Sync>(
    rt: &H,
    alloc: Global,
    line: &[u8],
    want: &[u8],
) -> Result<(), Fail> {
    let mut script = b"put 61 =31\n".to_vec(alloc)?;
    script.extend_from_slice(line)?;
    script.extend_from_slice(b"\ncommit\nget v1 61\n")?;
    is_answered(rt, alloc, &script, want)
}

#[test]
fn lines_outside_the_grammar_change_nothing(rt: HostRuntime) -> Result<(), Fail> {
    let alloc = rt.alloc();
    let want = with_roots(
        alloc,
        "0 ok pending 1\n0 no syntax\n1 ok commit 1 R\n1 ok value =31\n",
    )?;
    for line in OUTSIDE {
        is_between(&rt, alloc, line, &want)?;
    }
    Ok(())
}

// Lengths of a line in bytes, and the replies to it and to `root head` after it.
const LONG: &[(usize, &str)] = &[
    (8500, "0 no syntax\n0 ok root E\n"),
    (8501, "0 no long\n0 ok root E\n"),
    (30_000, "0 no long\n0 ok root E\n"),
];

const STARTS: &[&[u8]] = &[b"put 61 =31", b"\xff", b"root head "];

// A line of `length` bytes that begins with `start`, and the line `root head`.
fn long_script(alloc: Global, start: &[u8], length: usize) -> Result<Vec<u8>, Fail> {
    let mut script = start.to_vec(alloc)?;
    for _ in start.len()..length {
        script.push(b'1')?;
    }
    script.extend_from_slice(b"\nroot head")?;
    Ok(script)
}

// Runs lines of `length` bytes. Fails unless the replies are `want`.
fn is_skipped<H: Threads + Wait + Sync>(
    rt: &H,
    alloc: Global,
    length: usize,
    want: &str,
) -> Result<(), Fail> {
    let want = with_roots(alloc, want)?;
    for start in STARTS {
        let script = long_script(alloc, start, length)?;
        is_answered(rt, alloc, &script, &want)?;
    }
    Ok(())
}

#[test]
fn long_lines_are_told_and_skipped(rt: HostRuntime) -> Result<(), Fail> {
    let alloc = rt.alloc();
    for (length, want) in LONG {
        is_skipped(&rt, alloc, *length, want)?;
    }
    Ok(())
}

// Lines that could be refused for several reasons, of which the first is reported: what a script shows, its lines, and their
// replies, where letters represent roots as in `with_roots`. The values are from a reference in Python that keeps whole
// maps, and its `hashlib`.
const FIRST: &[(&str, &str, &str)] = &[
    (
        "a version above the head, before a place",
        "commit\n\
         chunk v2 0 1\n\
         nth v2 0\n\
         commit\n\
         prune 1\n\
         chunk v0 0 1\n\
         nth v0 0\n\
         chunk v9 9 1\n\
         nth v9 9\n\
         chunk p0 0 1\n\
         nth p0 0\n\
         chunk v1 0 1\n\
         nth v1 0\n\
         chunk head 9 1\n",
        "1 ok commit 1 E\n\
         1 no future 1\n\
         1 no future 1\n\
         2 ok commit 2 E\n\
         3 ok prune 1 1\n\
         3 no retired 1\n\
         3 no retired 1\n\
         3 no future 2\n\
         3 no future 2\n\
         3 no nopin\n\
         3 no nopin\n\
         3 no range 0\n\
         3 no range 0\n\
         3 no range 0\n",
    ),
    (
        "a version that cannot be pinned, before full places",
        "commit\n\
         commit\n\
         prune 1\n\
         pin 1\npin 1\npin 1\npin 1\npin 1\npin 1\npin 1\npin 1\n\
         pin 3\n\
         pin 0\n\
         pin 2\n",
        "1 ok commit 1 E\n\
         2 ok commit 2 E\n\
         3 ok prune 1 1\n\
         3 ok pin 0\n\
         3 ok pin 1\n\
         3 ok pin 2\n\
         3 ok pin 3\n\
         3 ok pin 4\n\
         3 ok pin 5\n\
         3 ok pin 6\n\
         3 ok pin 7\n\
         3 no future 2\n\
         3 no retired 1\n\
         3 no pinsfull\n",
    ),
    (
        "a fork that is not made, before one that is gone",
        "fork head\n\
         drop f0\n\
         fork f1\n\
         fork f0\n\
         land f1\n\
         land f0\n\
         drop f1\n\
         drop f0\n\
         get f1 61\n\
         get f0 61\n\
         root f1\n\
         root f0\n",
        "1 ok fork f0 E\n\
         2 ok drop 1\n\
         2 no unknown\n\
         2 no gone\n\
         2 no unknown\n\
         2 no gone\n\
         2 no unknown\n\
         2 no gone\n\
         2 no unknown\n\
         2 no gone\n\
         2 no unknown\n\
         2 no gone\n",
    ),
    (
        "a bound above the head, before a retired one",
        "commit\n\
         commit\n\
         prune 2\n\
         prune 3\n\
         prune 1\n\
         prune 2\n",
        "1 ok commit 1 E\n\
         2 ok commit 2 E\n\
         3 ok prune 2 2\n\
         3 no future 2\n\
         3 no retired 2\n\
         4 ok prune 2 2\n",
    ),
];

#[test]
fn the_first_refusal_is_told(rt: HostRuntime) -> Result<(), Fail> {
    let alloc = rt.alloc();
    for (what, script, want) in FIRST {
        assert!(rt; tells(&rt, alloc, script, want)?, "{what}");
    }
    Ok(())
}
