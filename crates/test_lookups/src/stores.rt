// What a store answers to `prove` is believed, and of another version it isn't. Roots are by Python's `hashlib`.
use jf_evidence::ProofFault;
use jf_play::play::{NO_FAULTS, has_ended, new_disk, play_after, play_line};
use jf_play::roots::ONE;
use jf_run::LookupFault;
use jf_run::status::Status;
use std::alloc::Global;
use std::sync::Wait;
use std::test::Fail;
use std::thread::Threads;

// `1` at `a`, and then `2` there.
const SCRIPT: &str = "put 61 =31\ncommit\nput 61 =32\ncommit\n";

// A line that asks the store for a proof, a name that is asked under the root of version 1, how that ends, and what is
// written.
const ASKED: &[(&[u8], &str, Status, &[u8])] = &[
    (b"prove v1 61", "61", Status::Done, b"value =31\n"),
    (b"prove v1 62", "62", Status::Done, b"none\n"),
    (
        b"prove head 61",
        "61",
        Status::NotShown(LookupFault::Claim(ProofFault::WrongRoot)),
        b"refused 4\n",
    ),
    (
        b"prove v1 61",
        "62",
        Status::NotShown(LookupFault::OtherName),
        b"refused 5\n",
    ),
    (
        b"root v1",
        "61",
        Status::NotShown(LookupFault::NoBlock),
        b"refused 6\n",
    ),
];

// Whether the store's answer is judged so.
fn is_judged<H: Threads + Wait + Sync>(
    rt: &H,
    alloc: Global,
    row: &(&[u8], &str, Status, &[u8]),
) -> Result<bool, Fail> {
    let answer = play_after(rt, alloc, SCRIPT, "run", row.0, NO_FAULTS)?.text;
    let line = format!(in alloc; "judge {ONE} {}", row.1)?;
    let disk = new_disk(alloc, b"", &[])?;
    let played = play_line(rt, alloc, disk, line.as_str(), &answer, NO_FAULTS)?;
    Ok(has_ended(&played, row.2, None, row.3))
}

#[test]
fn the_answers_of_a_store_are_judged_under_the_root_of_a_version(
    rt: HostRuntime,
) -> Result<(), Fail> {
    for (number, row) in ASKED.iter().enumerate() {
        assert!(rt; is_judged(&rt, rt.alloc(), row)?, "of {number}");
    }
    Ok(())
}
