// Lines at hand that read the head are cut into parts, and several workers prepare their replies.
ghost use Rattle.std.specs.Prelude.{◌≤◌, ℕ, length, IfSome, IfOk};
ghost use Rattle.std.specs.List.{AllByRecursion};
ghost use Rattle.jf_hash.specs.Maps.{Map};
ghost use Rattle.jf_session.specs.PreparedReplies.{AsksHead, ArePreparedFor};

use crate::prepared_reply::{PART, head_question, prepare_part};
use jf_io::first_line_feed;
use jf_join::{FreeGate, Workers, join_pieces};
use jf_node::Snapshot;
use jf_path::Memory;
use jf_prepare::PreparedLines;
use jf_script::Question;
use jf_text::{is_word, split_word};
use std::alloc::Global;
use std::thread::Threads;

// At most so many parts are prepared at once, and at most lines of so much weight, as far as whole parts go.
const PARTS: u64 = 64;

const MOST: u64 = 4096;

// The weight of a `chunk`, whose reply may have megabytes: it ends its part, and at most sixteen are prepared at once.
const CHUNK: u64 = 256;

// The weight of a `prove`, which takes about as long as so many shorter reads.
const PROOF: u64 = 4;

// With lines of less weight than this after the first it takes longer to start workers than to answer the lines.
const FEWEST: u64 = 100;

// The question that a line asks of the head, if many lines after it read the head too and there are workers for them.
pub(crate) fn question_ahead(
    alloc: Global,
    line: &[u8],
    after: &[u8],
    workers: Workers,
) -> Option<Question>
    ensures { IfSome result (AsksHead line.now) }
{
    if workers.is_one() || line_weight(line) == 0 {
        return None;
    }
    let (_, weight) = front_of_reads(after, FEWEST);
    if weight < FEWEST {
        return None;
    }
    head_question(alloc, line)
}

// The replies to the lines that read the head at the front of a text, after so many entries, prepared by at most so many
// workers. If memory runs out, there are fewer or none.
pub(crate) fn prepare_run<H: Threads + Sync>(
    rt: &H,
    alloc: Global,
    head: &Snapshot,
    seen: u64,
    text: &[u8],
    workers: Workers,
) -> PreparedLines
    ensures { ArePreparedFor head.now.map seen result }
{
    match prepare_parts(rt, alloc, head, seen, text, workers) {
        Ok(parts) => join_prepared(alloc, parts),
        Err(Memory) => PreparedLines::new(alloc),
    }
}

// The replies, part by part.
fn prepare_parts<H: Threads + Sync>(
    rt: &H,
    alloc: Global,
    head: &Snapshot,
    seen: u64,
    text: &[u8],
    workers: Workers,
) -> Result<Vec<PreparedLines>, Memory>
    ensures { IfOk result (λ parts. AllByRecursion (λ part. ArePreparedFor head.now.map seen part) parts.items) }
{
    let parts = parts_of(alloc, text)?;
    let prepare = |part: &&[u8]| -> PreparedLines
        ensures { ArePreparedFor head.entry.now.map seen result }
    { prepare_part(alloc, head, seen, part) };
    join_pieces(rt, alloc, &parts, workers, &FreeGate, &prepare)
}

// The replies of all parts, in order; none if there is no memory for all of them.
fn join_prepared(alloc: Global, parts: Vec<PreparedLines>) -> PreparedLines
    ensures { (m : Map) (n : ℕ) → AllByRecursion (λ part. ArePreparedFor m n part) parts.items → ArePreparedFor m n result }
{
    let Ok(mut prepared) = PreparedLines::with_room_for(alloc, &parts) else {
        return PreparedLines::new(alloc);
    };
    for part in parts {
        if prepared.append(&part).is_err() {
            return prepared;
        }
    }
    prepared
}

// The parts of the lines that read the head at the front of a text.
fn parts_of(alloc: Global, text: &[u8]) -> Result<Vec<&[u8]>, Memory> {
    let mut parts = Vec::new(alloc);
    let mut start = 0;
    let mut left = MOST;
    for _part in 0..PARTS {
        let (end, weight) = front_of_reads(&text[start..], PART);
        if end == 0 {
            return Ok(parts);
        }
        parts.push(&text[start..start + end])?;
        start += end;
        if weight >= left {
            return Ok(parts);
        }
        left -= weight;
    }
    Ok(parts)
}

// The end of the whole lines at the front of a text that read the head, and their weight, up to the first at which that is
// enough.
fn front_of_reads(text: &[u8], enough: u64) -> (usize, u64)
    requires { enough ≤ 1000 }
    ensures { result.0 ≤ length text.now }
{
    let mut end = 0;
    let mut weight = 0;
    while weight < enough {
        let next = end + first_line_feed(&text[end..]);
        if next == text.len() {
            return (end, weight);
        }
        let more = line_weight(&text[end..next]);
        if more == 0 {
            return (end, weight);
        }
        end = next + 1;
        weight += more;
    }
    (end, weight)
}

// How much a line that reads the head, told by its first words, adds to a part; of any other line nothing.
fn line_weight(line: &[u8]) -> u64
    ensures { result ≤ 256 }
{
    let (word, rest) = split_word(line);
    let Some(rest) = rest else {
        return 0;
    };
    let (base, _) = split_word(rest);
    if !is_word(base, b"head") || is_word(word, b"fork") {
        return 0;
    }
    if is_word(word, b"chunk") {
        CHUNK
    } else if is_word(word, b"prove") {
        PROOF
    } else {
        1
    }
}
