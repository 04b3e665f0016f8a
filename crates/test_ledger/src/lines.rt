// The text of a run of four sessions, line by line: what its replies made, and what its ledger lists.
use std::str;

// How many sessions there are.
const SESSIONS: usize = 4;

// Their numbers, as the ledger writes them.
const OWNERS: &[&str] = &["0", "1", "2", "3"];

/// A text as it was written. Empty if it isn't one.
pub(crate) fn text_of(written: &[u8]) -> &str {
    str::from_utf8(written).unwrap_or("")
}

/// The word of a line at this place, from 0. Empty if the line has fewer.
pub(crate) fn word(line: &str, place: usize) -> &str {
    line.split(' ').nth(place).unwrap_or("")
}

// What replies say that tell of an entry which their line made.
const MAKING: &[&str] = &[
    " ok commit ",
    " ok fork ",
    " ok land ",
    " ok drop ",
    " ok prune ",
    " ok compact ",
];

// How many entries replies made.
fn made_by(replies: &str) -> usize {
    let mut made: usize = 0;
    for making in MAKING {
        made = made.saturating_add(replies.matches(*making).count());
    }
    made
}

// How many lines of a ledger are of this owner.
fn listed_for(entries: &str, owner: &str) -> usize {
    let mut listed: usize = 0;
    for line in entries.lines() {
        listed = listed.saturating_add(usize::from(word(line, 1) == owner));
    }
    listed
}

// Whether each of four sessions has whole replies, which made as many entries as are listed for it.
fn are_owned(outputs: &str, entries: &str) -> bool {
    for (replies, owner) in outputs.split("session\n").skip(1).zip(OWNERS) {
        if !replies.ends_with('\n') || made_by(replies) != listed_for(entries, owner) {
            return false;
        }
    }
    outputs.matches("session\n").count() == SESSIONS
}

/// How many replies a text of four sessions has, each of which wrote one. `None` if a line is cut, or if the ledger doesn't list
/// as many entries as there are, or for a session not as many as its replies made.
pub(crate) fn replies_in(text: &str, entries: u64) -> Option<usize> {
    let (outputs, ledger) = text.split_once("ledger ")?;
    let (count, listed) = ledger.split_once('\n')?;
    let whole = count.parse() == Ok(entries) && listed.lines().count() as u64 == entries;
    if whole && text.ends_with('\n') && are_owned(outputs, listed) {
        outputs.lines().count().checked_sub(SESSIONS)
    } else {
        None
    }
}

/// How many landings the ledger of a text lists. `None` unless the replies of a later run, to reads of the versions from 1 on,
/// tell the root of each.
pub(crate) fn landings_reported(text: &str, replies: &str) -> Option<u64> {
    let mut landed: u64 = 0;
    let mut replies = replies.lines();
    for line in text.lines() {
        if line.starts_with("landed ") {
            landed = landed.saturating_add(1);
            if word(replies.next()?, 3) != word(line, 3) {
                return None;
            }
        }
    }
    Some(landed)
}
