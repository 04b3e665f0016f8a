// Replies to lines that read the head, made before the lines are taken.
ghost use Rattle.std.specs.Prelude.{◌≡◌, ◌++◌, [], OnOk, OnErr, IfSome, IsTrue};
ghost use Rattle.jf_script.specs.Bounds.{IsBoundedQuestion};
ghost use Rattle.jf_session.specs.PreparedReplies.{AsksHead, IsPreparedFor, ArePreparedFor, question_text};

use crate::answer::write_answer;
use crate::questions::answer_question;
use jf_io::first_line_feed;
use jf_node::Snapshot;
use jf_path::{Bytes, Memory};
use jf_prepare::PreparedLines;
use jf_script::{Base, Command, Question, read_line};
use std::alloc::Global;

// A part ends with the line at which the weight of its lines is at least this.
pub(crate) const PART: u64 = 64;

// The question that a line asks of the head; `None` if it asks none, or memory ran out.
pub(crate) fn head_question(alloc: Global, line: &[u8]) -> Option<Question>
    ensures { IfSome result (AsksHead line.now) }
{
    match read_line(alloc, line) {
        Ok(
            Command::Read {
                base: Base::Head,
                question,
            },
        ) => Some(question),
        Ok(_) => None,
        Err(_) => None,
    }
}

// Appends the reply to a question over the map of the head, after so many entries. If memory runs out, the text is
// unchanged.
pub(crate) fn write_head_reply(
    alloc: Global,
    head: &Snapshot,
    seen: u64,
    question: Question,
    out: &mut Bytes,
) -> Result<(), Memory>
    requires { IsBoundedQuestion question }
    ensures ok { OnOk result (out.new ≡ out.old ++ question_text head.now.map seen question) }
    ensures err { OnErr result (out.new ≡ out.old) }
{
    let mut block = Bytes::new(alloc);
    match answer_question(alloc, head, question, &mut block) {
        Ok(reply) => write_answer(seen, &reply, block.as_slice(), out),
        Err(_) => Err(Memory),
    }
}

// Appends the reply to a line that reads the head, after so many entries; `false` if it doesn't, or memory ran out.
fn writes_reply(alloc: Global, head: &Snapshot, seen: u64, line: &[u8], text: &mut Bytes) -> bool
    requires { text.old ≡ [] }
    ensures { IsTrue result → IsPreparedFor head.now.map seen line.now text.new }
{
    match head_question(alloc, line) {
        Some(question) => write_head_reply(alloc, head, seen, question, text).is_ok(),
        None => false,
    }
}

// The replies to the lines of a text, up to the first that has none.
pub(crate) fn prepare_part(alloc: Global, head: &Snapshot, seen: u64, part: &[u8]) -> PreparedLines
    ensures { ArePreparedFor head.now.map seen result }
{
    let room = part.len();
    let Ok(mut prepared) = PreparedLines::with_room(alloc, PART as usize, room, room) else {
        return PreparedLines::new(alloc);
    };
    let mut text = Bytes::new(alloc);
    let mut start = 0;
    while start < part.len() {
        let end = start + first_line_feed(&part[start..]);
        let line = &part[start..end];
        text.clear();
        if !writes_reply(alloc, head, seen, line, &mut text) {
            return prepared;
        }
        if prepared.push(line, text.as_slice()).is_err() {
            return prepared;
        }
        start = end + 1;
    }
    prepared
}
