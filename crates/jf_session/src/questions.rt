// What a question is answered over a map: a snapshot's, or that of a fork's tree. No session is in it.
ghost use Rattle.std.specs.Prelude.{◌≡◌, ◌≤◌, IfOk, IfErr};
ghost use Rattle.std.specs.Option.{option_copied};
ghost use Rattle.jf_script.specs.Bounds.{IsBoundedQuestion};
ghost use Rattle.jf_script.specs.Commands.{question_of};
ghost use Rattle.jf_script.specs.declared.command.Question.TheVariants as question;
ghost use Rattle.jf_session.specs.Questions.{IsReplyTo, IsAnswerTo};

use crate::answer::{write_chunk_of, write_proof_of};
use crate::stop::Stop;
use jf_hash::key_of;
use jf_node::Snapshot;
use jf_nth::nth;
use jf_path::{Bytes, Key, Memory};
use jf_range::RangeAsk;
use jf_script::{ForkQuestion, Question, Refusal, Reply};
use jf_spec::SpecTree;
use std::alloc::Global;

/// Answers a question over the map of a snapshot. The lines of the answer's block, if it has one, are appended to `block`.
pub(crate) fn answer_question(
    alloc: Global,
    snapshot: &Snapshot,
    question: Question,
    block: &mut Bytes,
) -> Result<Reply, Stop>
    requires { IsBoundedQuestion question }
    ensures { IsAnswerTo question snapshot.now.map block.old block.new result }
{
    match question {
        Question::Get { name } => value_of(alloc, snapshot, name.as_slice()),
        Question::Root => Ok(Reply::Root {
            root: snapshot.root(),
        }),
        Question::Prove { name } => proof_of(alloc, snapshot, name.as_slice(), block),
        Question::Chunk { start, count } => chunk_of(alloc, snapshot, start, count, block),
        Question::Count => Ok(Reply::Count {
            count: snapshot.count(),
        }),
        Question::Nth { place } => entry_of(alloc, snapshot, place),
    }
}

/// Answers a question over the map of a fork. No answer has a block.
pub(crate) fn answer_fork_question(
    alloc: Global,
    tree: &SpecTree,
    question: ForkQuestion,
) -> Result<Reply, Stop>
    ensures { IsReplyTo (question_of question) tree.now result }
{
    match question {
        ForkQuestion::Get { name } => value_reply(alloc, tree.get(&key_of(name.as_slice()))),
        ForkQuestion::Root => Ok(Reply::Root { root: tree.root() }),
    }
}

// The value of a name.
fn value_of(alloc: Global, snapshot: &Snapshot, name: &[u8]) -> Result<Reply, Stop>
    ensures { IsReplyTo (question.Get name.now) snapshot.now.map result }
{
    value_reply(alloc, snapshot.get(&key_of(name)))
}

// What is said of a name. The lines of the proof are appended to `block`.
fn proof_of(
    alloc: Global,
    snapshot: &Snapshot,
    name: &[u8],
    block: &mut Bytes,
) -> Result<Reply, Stop>
    ensures { IsAnswerTo (question.Prove name.now) snapshot.now.map block.old block.new result }
{
    match write_proof_of(alloc, snapshot, name, block) {
        Ok(siblings) => Ok(Reply::Proof { siblings }),
        Err(Memory) => Err(Stop::Memory),
    }
}

// The entries from a place on. Their lines, and those of their proof, are appended to `block`.
fn chunk_of(
    alloc: Global,
    snapshot: &Snapshot,
    start: u64,
    count: u64,
    block: &mut Bytes,
) -> Result<Reply, Stop>
    requires { 1 ≤ count }
    ensures { IsAnswerTo (question.Chunk start count) snapshot.now.map block.old block.new result }
{
    match write_chunk_of(alloc, snapshot, start, count, block) {
        Ok(reply) => Ok(reply),
        Err(RangeAsk::Beyond(number)) => Ok(Reply::No(Refusal::Range(number))),
        Err(RangeAsk::Memory) => Err(Stop::Memory),
    }
}

// The entry at a place, counted from 0 in the order of the keys.
fn entry_of(alloc: Global, snapshot: &Snapshot, place: u64) -> Result<Reply, Stop>
    ensures { IsReplyTo (question.Nth place) snapshot.now.map result }
{
    match nth(snapshot, place) {
        Some((key, value)) => entry_reply(alloc, key, value),
        None => Ok(Reply::No(Refusal::Range(snapshot.count()))),
    }
}

// The reply with a copy of a value, if there is one.
fn value_reply(alloc: Global, value: Option<&[u8]>) -> Result<Reply, Stop>
    ensures ok { IfOk result (λ r. r ≡ Reply.Value (option_copied value.entry)) }
    ensures err { IfErr result (λ why. why ≡ Stop.Memory) }
{
    match value {
        Some(value) => match Bytes::copy_of(alloc, value) {
            Ok(value) => Ok(Reply::Value { value: Some(value) }),
            Err(Memory) => Err(Stop::Memory),
        },
        None => Ok(Reply::Value { value: None }),
    }
}

// The reply with an entry, whose value is copied.
fn entry_reply(alloc: Global, key: &Key, value: &[u8]) -> Result<Reply, Stop>
    ensures ok { IfOk result (λ r. r ≡ Reply.Nth key.now value.now) }
    ensures err { IfErr result (λ why. why ≡ Stop.Memory) }
{
    match Bytes::copy_of(alloc, value) {
        Ok(value) => Ok(Reply::Nth { key: *key, value }),
        Err(Memory) => Err(Stop::Memory),
    }
}
