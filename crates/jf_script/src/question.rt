// The words of a read: a keyword, the word for a map, and what the question takes.
ghost use Rattle.std.specs.Prelude.{◌≡◌, ◌∷◌, [], ◌||◌, codes, IfOk, IsTrue, OnErr};
ghost use Rattle.jf_text.specs.Words.{is_word};
ghost use Rattle.jf_script.specs.Commands.{question_of_words, fork_question_of, read_command};

use crate::base::{base_of, id_of};
use crate::command::{Command, ForkQuestion, Question};
use jf_path::Memory;
use jf_text::{MAX_CHUNK, is_word, name_of, number_from, number_of};
use std::alloc::Global;

/// The question of a keyword that takes nothing more than a map.
pub(crate) fn bare_question(word: &[u8]) -> Option<Question>
    ensures { result ≡ question_of_words word.now [] }
{
    if is_word(word, b"root") {
        Some(Question::Root)
    } else if is_word(word, b"count") {
        Some(Question::Count)
    } else {
        None
    }
}

/// The question of a keyword with one word after the map.
pub(crate) fn question_of_one(
    alloc: Global,
    word: &[u8],
    a: &[u8],
) -> Result<Option<Question>, Memory>
    ensures ok { IfOk result (λ q. q ≡ question_of_words word.now (a.now ∷ [])) }
    ensures err { OnErr result (IsTrue (is_word word.now (codes "get") || is_word word.now (codes "prove"))) }
{
    if is_word(word, b"get") {
        Ok(name_of(alloc, a)?.map(|name| Question::Get { name }))
    } else if is_word(word, b"prove") {
        Ok(name_of(alloc, a)?.map(|name| Question::Prove { name }))
    } else if is_word(word, b"nth") {
        Ok(number_of(a).map(|place| Question::Nth { place }))
    } else {
        Ok(None)
    }
}

/// The question of a keyword with two words after the map.
pub(crate) fn question_of_two(word: &[u8], a: &[u8], b: &[u8]) -> Option<Question>
    ensures { result ≡ question_of_words word.now (a.now ∷ b.now ∷ []) }
{
    if !is_word(word, b"chunk") {
        return None;
    }
    let start = number_of(a)?;
    let count = number_from(1, MAX_CHUNK, b)?;
    Some(Question::Chunk { start, count })
}

/// A question as one to a fork, if forks are asked it.
fn fork_question_of(question: Question) -> Option<ForkQuestion>
    ensures { result ≡ fork_question_of question }
{
    match question {
        Question::Get { name } => Some(ForkQuestion::Get { name }),
        Question::Root => Some(ForkQuestion::Root),
        _ => None,
    }
}

/// The read of a question, if there is one and the word `on` names a map that is asked it.
pub(crate) fn read_command(on: &[u8], question: Option<Question>) -> Option<Command>
    ensures { result ≡ read_command on.now question }
{
    let question = question?;
    match id_of(on) {
        Some(id) => {
            let question = fork_question_of(question)?;
            Some(Command::ReadFork { id, question })
        }
        None => {
            let base = base_of(on)?;
            Some(Command::Read { base, question })
        }
    }
}
