// Two sessions land versions side by side.
use crate::lines::{text_of, word};
use jf_play::play::{NO_FAULTS, play, roomy_disk};
use std::alloc::Global;
use std::sync::Wait;
use std::test::Fail;
use std::thread::Threads;

// Adds a session of a hundred lines `commit` to an input.
fn add_session(input: &mut Vec<u8>) -> Result<(), Fail> {
    input.extend_from_slice(b"session\n")?;
    for _ in 0..100 {
        input.extend_from_slice(b"commit\n")?;
    }
    Ok(())
}

// The input of two such sessions.
fn two_sessions(alloc: Global) -> Result<Vec<u8>, Fail> {
    let mut input = Vec::new(alloc);
    add_session(&mut input)?;
    add_session(&mut input)?;
    Ok(input)
}

// Whether a ledger's line is of the landing of this version, and a reply says that its line made it.
fn is_landing(line: &str, reply: &str, version: u64) -> bool {
    let number = word(line, 2);
    word(line, 0) == "landed"
        && number.parse() == Ok(version)
        && number == word(reply, 0)
        && word(reply, 2) == "commit"
        && number == word(reply, 3)
}

// The replies to a session of this number. Empty if there are fewer.
fn replies_of(outputs: &str, number: usize) -> &str {
    outputs
        .split("session\n")
        .nth(number.saturating_add(1))
        .unwrap_or("")
}

// Whether a ledger lists the versions from 1 on in order, each with the next reply of its owner, and no reply is left.
fn are_landed(ledger: &str, first: &str, second: &str) -> bool {
    let mut version: u64 = 0;
    let (mut first, mut second) = (first.lines(), second.lines());
    for line in ledger.lines() {
        version = version.saturating_add(1);
        let reply = match word(line, 1) {
            "0" => first.next(),
            "1" => second.next(),
            _ => None,
        };
        if !is_landing(line, reply.unwrap_or(""), version) {
            return false;
        }
    }
    first.next().is_none() && second.next().is_none()
}

// Whether a text is that of two sessions with 200 landings in all.
fn is_whole(text: &str) -> bool {
    let Some((outputs, ledger)) = text.split_once("ledger 200\n") else {
        return false;
    };
    let two = outputs.matches("session\n").count() == 2;
    two && are_landed(ledger, replies_of(outputs, 0), replies_of(outputs, 1))
}

// Fails unless both sessions land all of theirs.
fn both_land<H: Threads + Wait + Sync>(rt: &H, alloc: Global) -> Result<(), Fail> {
    let disk = roomy_disk(alloc)?;
    let input = two_sessions(alloc)?;
    let played = play(rt, alloc, disk, "serve", &input, NO_FAULTS)?;
    if played.entries == 200 && is_whole(text_of(&played.text)) {
        Ok(())
    } else {
        Err(Fail::new(played.entries))
    }
}

#[test]
fn two_writers_land_a_hundred_versions_each(rt: HostRuntime) -> Result<(), Fail> {
    both_land(&rt, rt.alloc())
}
