// The bounds of scripts: the longest names, values and lines, and the most names of a batch.
use jf_play::play::{NO_FAULTS, has_ended, is_answered, new_disk, play};
use jf_run::status::Status;
use std::alloc::Global;
use std::sync::Wait;
use std::test::Fail;
use std::thread::Threads;

// Appends `more` to the text, `times` times.
pub(crate) fn extend_text(text: &mut Vec<u8>, more: &[u8], times: usize) -> Result<(), Fail> {
    for _ in 0..times {
        text.extend_from_slice(more)?;
    }
    Ok(())
}

// A `put` whose name has `name` bytes and whose value has `value` bytes.
fn put_line(alloc: Global, name: usize, value: usize) -> Result<Vec<u8>, Fail> {
    let mut line = b"put ".to_vec(alloc)?;
    extend_text(&mut line, b"61", name)?;
    extend_text(&mut line, b" =", 1)?;
    extend_text(&mut line, b"31", value)?;
    Ok(line)
}

// The lengths of a name and of a value, in bytes, and the reply to their `put`.
const LENGTHS: &[(usize, usize, &str)] = &[
    (1, 4096, "0 ok pending 1\n"),
    (1, 4097, "0 no syntax\n"),
    (128, 4096, "0 ok pending 1\n"),
    (129, 0, "0 no syntax\n"),
    (0, 1, "0 no syntax\n"),
    (1, 4246, "0 no syntax\n"),
    (1, 4247, "0 no long\n"),
];

// Whether a line over a new store gets the reply `want`, and makes no entry.
fn is_replied<H: Threads + Wait + Sync>(
    rt: &H,
    alloc: Global,
    line: &[u8],
    want: &str,
) -> Result<bool, Fail> {
    let disk = new_disk(alloc, b"", &[])?;
    let played = play(rt, alloc, disk, "run", line, NO_FAULTS)?;
    let ended = has_ended(&played, Status::Done, Some(0), want.as_bytes());
    Ok(ended && played.entries == 0)
}

#[test]
fn names_and_values_have_their_longest(rt: HostRuntime) -> Result<(), Fail> {
    let alloc = rt.alloc();
    for (name, value, want) in LENGTHS {
        let line = put_line(alloc, *name, *value)?;
        assert!(rt;
            is_replied(&rt, alloc, &line, want)?,
            "of {name} and {value}"
        );
    }
    Ok(())
}

// The most names of a batch.
const FULL: u64 = 10_000;

// Appends a `put` of the name of this number. Different numbers have different names.
fn add_put(alloc: Global, script: &mut Vec<u8>, number: u64) -> Result<(), Fail> {
    let line = format!(in alloc; "put {number:08} =\n")?;
    script.extend_from_slice(line.as_bytes())?;
    Ok(())
}

// Appends the reply to a `put` after which the batch has `names` names.
fn add_pending(alloc: Global, text: &mut Vec<u8>, names: u64) -> Result<(), Fail> {
    let line = format!(in alloc; "0 ok pending {names}\n")?;
    text.extend_from_slice(line.as_bytes())?;
    Ok(())
}

// `put` of the most names that a batch may have, then of one more name and of a name that is there, and `del` of these
// two.
fn full_script(alloc: Global) -> Result<Vec<u8>, Fail> {
    let mut script = Vec::new(alloc);
    for number in 1..=FULL {
        add_put(alloc, &mut script, number)?;
    }
    script.extend_from_slice(b"put 61 =\nput 00000001 =31\ndel 61\ndel 00000001\n")?;
    Ok(script)
}

// The replies to the last four lines of `full_script`.
const LAST: &[u8] = b"0 no pending\n0 ok pending 10000\n0 no pending\n0 ok pending 10000\n";

// The replies to `full_script`.
fn full_replies(alloc: Global) -> Result<Vec<u8>, Fail> {
    let mut text = Vec::new(alloc);
    for names in 1..=FULL {
        add_pending(alloc, &mut text, names)?;
    }
    text.extend_from_slice(LAST)?;
    Ok(text)
}

#[test]
fn a_full_batch_takes_no_new_name(rt: HostRuntime) -> Result<(), Fail> {
    let alloc = rt.alloc();
    let script = full_script(alloc)?;
    let want = full_replies(alloc)?;
    is_answered(&rt, alloc, &script, &want)
}
