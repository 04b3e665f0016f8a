// The puts among lines at hand, read by several workers.
ghost use Rattle.std.specs.Prelude.{◌≡◌, ◌≤◌, [], IfOk, IsTrue};
ghost use Rattle.std.specs.List.{AllByRecursion};
ghost use Rattle.jf_prepare.specs.PreparedPuts.{IsPutOf, ArePuts};

use crate::look_ahead::begins_put;
use crate::prepared_lines::PreparedLines;
use jf_hash::key_of;
use jf_io::first_line_feed;
use jf_join::{FreeGate, Workers, join_pieces};
use jf_path::{Bytes, Memory};
use jf_script::{Command, OwnCommand, read_line};
use std::alloc::Global;
use std::thread::Threads;

/// The puts among the whole lines of a text, each with the key of its name and then its value, read by at most so many workers.
/// Each worker has a part of the text, and gives a list. The list of the last part comes first, so that `pop` takes the lists in
/// the order of the lines. If memory runs out, puts may be missing.
pub fn read_puts<H: Threads + Sync>(
    rt: &H,
    alloc: Global,
    text: &[u8],
    workers: Workers,
) -> Result<Vec<PreparedLines>, Memory>
    // Each line of each list is a put, and its text is the key of the name and then the value.
    ensures { IfOk result (λ lists. AllByRecursion ArePuts lists.items) }
{
    let parts = parts_of(alloc, text, workers.get())?;
    let read = |part: &&[u8]| -> PreparedLines
        ensures { ArePuts result }
    { puts_in(alloc, part) };
    let mut lists = join_pieces(rt, alloc, &parts, workers, &FreeGate, &read)?;
    lists.reverse();
    Ok(lists)
}

// A part has at least so many bytes, if the text has: a thread for fewer would cost more than it saves.
const LEAST: usize = 4_096;

// The lines of a part are taken to have so many bytes, where room for their sizes is taken.
const LINE: usize = 64;

// A text in so many parts of about the same length, or fewer. Each ends with a line, or with the text.
fn parts_of(alloc: Global, text: &[u8], count: u64) -> Result<Vec<&[u8]>, Memory>
    requires { 1 ≤ count }
{
    let mut parts = Vec::new(alloc);
    let about = LEAST.max(text.len() / count as usize);
    let mut start = 0;
    while start < text.len() {
        let least = text.len().min(start + about);
        let line_end = text.len().min(least + first_line_feed(&text[least..]) + 1);
        let end = if text.len() - line_end < LEAST {
            text.len()
        } else {
            line_end
        };
        parts.push(&text[start..end])?;
        start = end;
    }
    Ok(parts)
}

// The puts among the whole lines of a part.
fn puts_in(alloc: Global, part: &[u8]) -> PreparedLines
    ensures { ArePuts result }
{
    let room = part.len();
    let Ok(mut puts) = PreparedLines::with_room(alloc, room / LINE, room, room) else {
        return PreparedLines::new(alloc);
    };
    let mut text = Bytes::new(alloc);
    let mut start = 0;
    while start < part.len() {
        let end = start + first_line_feed(&part[start..]);
        if end == part.len() {
            return puts;
        }
        let line = &part[start..end];
        text.clear();
        if writes_put(alloc, line, &mut text) && puts.push(line, text.as_slice()).is_err() {
            return puts;
        }
        start = end + 1;
    }
    puts
}

// Appends the key of the name and then the value, if a line is a put; `false` if it isn't, or memory ran out.
fn writes_put(alloc: Global, line: &[u8], text: &mut Bytes) -> bool
    requires { text.old ≡ [] }
    ensures { IsTrue result → IsPutOf line.now text.new }
{
    if !begins_put(line) {
        return false;
    }
    match read_line(alloc, line) {
        Ok(Command::Own(OwnCommand::Put { name, value })) => {
            let key = key_of(name.as_slice());
            text.append(&key).is_ok() && text.append(value.as_slice()).is_ok()
        }
        Ok(_) => false,
        Err(_) => false,
    }
}
