// Lines of a script, and the commands that they are read as.
use jf_script::read_line;
use std::test::Fail;

// What `read_line` returns, as it is printed.
fn answer(rt: &HostRuntime, line: &[u8]) -> Result<String, Fail> {
    let answer = read_line(rt.alloc(), line);
    Ok(format!(in rt.alloc(); "{answer:?}")?)
}

// Lines outside the grammar.
const REFUSED: &[&str] = &[
    "",
    " ",
    " commit",
    "commit ",
    "commit\r",
    "Commit",
    "commit 1",
    "status status",
    "stat",
    "session",
    "put  61 =31",
    "put 61  =31",
    "put 61 =31 ",
    "put 61",
    "put 61 31",
    "put 61 = 31",
    "put 61 =3",
    "put 61 =3A",
    "put 6 =31",
    "put 6g =31",
    "put 6G =31",
    "put  =31",
    "put 0x61 =31",
    "put 61 =31 =31",
    "put 4A =31",
    "del",
    "del =61",
    "del 61 62",
    "del 616",
    "get 61",
    "get head",
    "get head =61",
    "get HEAD 61",
    "get h 61",
    "get v 61",
    "get v01 61",
    "get v00 61",
    "get v+1 61",
    "get v-1 61",
    "get v1a 61",
    "get x1 61",
    "get 1 61",
    "get v18446744073709551616 61",
    "get v99999999999999999999999999 61",
    "root",
    "root v 1",
    "root heads",
    "root f",
    "root f01",
    "root f18446744073709551616",
    "root head 61",
    "get f01 61",
    "get head 61 62",
    "root v1\t",
    "fork",
    "fork f",
    "fork f01",
    "fork v1",
    "fork p0",
    "land head",
    "land v0",
    "land p0",
    "land 0",
    "drop head",
    "drop v0",
    "drop p0",
    "drop 1",
    "prove f0 61",
    "prove head",
    "chunk v1 0 0",
    "chunk v1 0 1001",
    "chunk v1 0 01",
    "chunk v1 0",
    "chunk f0 0 1",
    "chunk v1 0 1 1",
    "chunk v1 00 1",
    "chunk  0 1",
    "count f0",
    "count heads",
    "count",
    "count head 0",
    "nth head",
    "nth head 0 0",
    "nth 0",
    "nth f0 0",
    "nth head -1",
    "pin",
    "pin v1",
    "pin 01",
    "unpin p0",
    "prune head",
    "prune 1 2",
    "compact 1",
];

const REFUSED_BYTES: &[&[u8]] = &[
    b"get head 6\0",
    b"commit\0",
    b"\xffcommit",
    b"put 61 =\xb3\xb1",
    b"root v\xb2",
];

fn is_no_line(rt: &HostRuntime, line: &[u8]) -> Result<bool, Fail> {
    Ok(answer(rt, line)?.as_str() == "Err(Syntax)")
}

#[test]
fn refuses_lines_outside_the_grammar(rt: HostRuntime) -> Result<(), Fail> {
    for line in REFUSED {
        assert!(rt; is_no_line(&rt, line.as_bytes())?, "at {line:?}");
    }
    for line in REFUSED_BYTES {
        assert!(rt; is_no_line(&rt, line)?, "at {line:?}");
    }
    Ok(())
}

// A line of `head`, the text `61` for each of `bytes` bytes, and `tail`.
fn long_line(rt: &HostRuntime, head: &str, bytes: usize, tail: &str) -> Result<Vec<u8>, Fail> {
    let mut line = Vec::from_slice(rt.alloc(), head.as_bytes())?;
    for _ in 0..bytes {
        line.extend_from_slice(b"61")?;
    }
    line.extend_from_slice(tail.as_bytes())?;
    Ok(line)
}

// Lines, and how their commands are printed.
const LINES: &[(&str, &str)] = &[
    (
        "put 61 =31",
        "Ok(Own(Put { name: Bytes { bytes: [97] }, value: Bytes { bytes: [49] } }))",
    ),
    (
        "put 00ff0a =",
        "Ok(Own(Put { name: Bytes { bytes: [0, 255, 10] }, value: Bytes { bytes: [] } }))",
    ),
    (
        "del 6162",
        "Ok(Own(Del { name: Bytes { bytes: [97, 98] } }))",
    ),
    ("unpin 7", "Ok(Own(Unpin { place: 7 }))"),
    ("commit", "Ok(Change(Commit))"),
    ("fork head", "Ok(Change(Fork { on: Head }))"),
    ("fork f0", "Ok(Change(Fork { on: Fork(0) }))"),
    ("land f7", "Ok(Change(Land { id: 7 }))"),
    (
        "drop f18446744073709551615",
        "Ok(Change(Drop { id: 18446744073709551615 }))",
    ),
    ("prune 0", "Ok(Change(Prune { upto: 0 }))"),
    ("compact", "Ok(Change(Compact))"),
    (
        "get head 61",
        "Ok(Read { base: Head, question: Get { name: Bytes { bytes: [97] } } })",
    ),
    (
        "get v0 61",
        "Ok(Read { base: Version(0), question: Get { name: Bytes { bytes: [97] } } })",
    ),
    (
        "get f3 61",
        "Ok(ReadFork { id: 3, question: Get { name: Bytes { bytes: [97] } } })",
    ),
    (
        "get p7 61",
        "Ok(Read { base: Place(7), question: Get { name: Bytes { bytes: [97] } } })",
    ),
    ("root head", "Ok(Read { base: Head, question: Root })"),
    ("root f1", "Ok(ReadFork { id: 1, question: Root })"),
    (
        "root v18446744073709551615",
        "Ok(Read { base: Version(18446744073709551615), question: Root })",
    ),
    (
        "prove p0 61",
        "Ok(Read { base: Place(0), question: Prove { name: Bytes { bytes: [97] } } })",
    ),
    (
        "chunk v1 0 1",
        "Ok(Read { base: Version(1), question: Chunk { start: 0, count: 1 } })",
    ),
    (
        "chunk head 18446744073709551615 1000",
        "Ok(Read { base: Head, question: Chunk { start: 18446744073709551615, count: 1000 } })",
    ),
    ("count p2", "Ok(Read { base: Place(2), question: Count })"),
    (
        "nth head 0",
        "Ok(Read { base: Head, question: Nth { place: 0 } })",
    ),
    ("pin 10", "Ok(Pin { version: 10 })"),
    ("status", "Ok(Look)"),
];

#[test]
fn reads_lines(rt: HostRuntime) -> Result<(), Fail> {
    for (line, wanted) in LINES {
        is_read(&rt, line, wanted)?;
    }
    Ok(())
}

fn is_read(rt: &HostRuntime, line: &str, wanted: &str) -> Result<(), Fail> {
    if answer(rt, line.as_bytes())?.as_str() == wanted {
        Ok(())
    } else {
        Err(Fail::new(line))
    }
}

// A head, how many bytes `61` follow it, a tail, and how the printed command begins.
const BOUNDS: &[(&str, usize, &str, &str)] = &[
    ("del ", 128, "", "Ok(Own(Del"),
    ("del ", 129, "", "Err(Syntax)"),
    ("del ", 128, "6", "Err(Syntax)"),
    ("get head ", 128, "", "Ok(Read { base: Head, question: Get"),
    ("get head ", 129, "", "Err(Syntax)"),
    ("put 61 =", 4096, "", "Ok(Own(Put"),
    ("put 61 =", 4097, "", "Err(Syntax)"),
    ("put 61 =", 4246, "", "Err(Syntax)"),
    ("put 61 =", 4246, "6", "Err(LineTooLong)"),
    ("status ", 4246, "6", "Err(Syntax)"),
    ("status ", 4246, "61", "Err(LineTooLong)"),
];

fn begins(
    rt: &HostRuntime,
    head: &str,
    bytes: usize,
    tail: &str,
    wanted: &str,
) -> Result<bool, Fail> {
    let line = long_line(rt, head, bytes, tail)?;
    Ok(answer(rt, &line)?.as_str().starts_with(wanted))
}

#[test]
fn bounds_names_values_and_lines(rt: HostRuntime) -> Result<(), Fail> {
    for (head, bytes, tail, wanted) in BOUNDS {
        assert!(rt;
            begins(&rt, head, *bytes, tail, wanted)?,
            "at {head} and {bytes} bytes"
        );
    }
    Ok(())
}

#[test]
fn the_longest_line_has_8500_bytes(rt: HostRuntime) -> Result<(), Fail> {
    assert_eq!(rt; long_line(&rt, "put 61 =", 4246, "")?.len(), 8500);
    Ok(())
}
