// A line of a script is one to four words: a keyword, and what the command takes.
ghost use Rattle.std.specs.Prelude.{◌≡◌, ◌⊎◌, ◌↔◌, [], ◌∷◌, Some, None, Err, IfOk, IsTrue, OnErr, codes, false};
ghost use Rattle.jf_text.specs.Words.{is_long, is_word, words, both, name_of, value_of};
ghost use Rattle.jf_script.specs.Commands.{command_of, takes_name, one_word, two_words, three_words, four_words};

use crate::base::{id_of, parent_of};
use crate::command::{Change, Command, OwnCommand};
use crate::fault::LineFault;
use crate::question::{bare_question, question_of_one, question_of_two, read_command};
use jf_path::Memory;
use jf_text::{MAX_LINE, is_word, name_of, number_of, split_word, value_of};
use std::alloc::Global;

/// The command of a line, which is given without its line feed. Only a command with a name needs memory. The grammar is
/// that of docs/FORMATS.md, Scripts.
pub fn read_line(alloc: Global, line: &[u8]) -> Result<Command, LineFault>
    ensures found { IfOk result (λ c. command_of line.now ≡ Some c) }
    ensures short { IfOk result (λ c. is_long line.now ≡ false) }
    ensures too_long { (result ≡ Err LineFault.LineTooLong) ↔ IsTrue (is_long line.now) }
    ensures syntax { result ≡ Err LineFault.Syntax → (is_long line.now ≡ false) × (command_of line.now ≡ None) }
    ensures refused { is_long line.now ≡ false → command_of line.now ≡ None → (result ≡ Err LineFault.Syntax) ⊎ (result ≡ Err LineFault.Memory) }
    ensures memory { result ≡ Err LineFault.Memory → IsTrue (takes_name (words line.now)) }
{
    if line.len() > MAX_LINE {
        return Err(LineFault::LineTooLong);
    }
    match command_of(alloc, line) {
        Ok(Some(command)) => Ok(command),
        Ok(None) => Err(LineFault::Syntax),
        Err(Memory) => Err(LineFault::Memory),
    }
}

/// The command of a line of any length, if it is in the grammar.
#[tactic(auto, unfolding(crate::specs::Commands::command_of))]
fn command_of(alloc: Global, line: &[u8]) -> Result<Option<Command>, Memory>
    ensures ok { IfOk result (λ c. c ≡ command_of line.now) }
    ensures err { OnErr result (IsTrue (takes_name (words line.now))) }
{
    let (word, rest) = split_word(line);
    let Some(rest) = rest else {
        return Ok(one_word(word));
    };
    let (first, rest) = split_word(rest);
    let Some(rest) = rest else {
        return two_words(alloc, word, first);
    };
    let (second, rest) = split_word(rest);
    let Some(rest) = rest else {
        return three_words(alloc, word, first, second);
    };
    match split_word(rest) {
        (third, None) => Ok(four_words(word, first, second, third)),
        (_, Some(_)) => Ok(None),
    }
}

/// The command of a line of one word.
fn one_word(word: &[u8]) -> Option<Command>
    ensures { result ≡ one_word word.now }
{
    if is_word(word, b"commit") {
        Some(Command::Change(Change::Commit))
    } else if is_word(word, b"compact") {
        Some(Command::Change(Change::Compact))
    } else if is_word(word, b"status") {
        Some(Command::Look)
    } else {
        None
    }
}

/// The command of a line of two words.
fn two_words(alloc: Global, word: &[u8], a: &[u8]) -> Result<Option<Command>, Memory>
    ensures ok { IfOk result (λ c. c ≡ two_words word.now a.now) }
    ensures err { OnErr result (IsTrue (is_word word.now (codes "del"))) }
{
    if is_word(word, b"del") {
        Ok(name_of(alloc, a)?.map(|name| Command::Own(OwnCommand::Del { name })))
    } else if is_word(word, b"unpin") {
        Ok(number_of(a).map(|place| Command::Own(OwnCommand::Unpin { place })))
    } else if is_word(word, b"pin") {
        Ok(number_of(a).map(|version| Command::Pin { version }))
    } else if is_word(word, b"fork") {
        Ok(parent_of(a).map(|on| Command::Change(Change::Fork { on })))
    } else if is_word(word, b"land") {
        Ok(id_of(a).map(|id| Command::Change(Change::Land { id })))
    } else if is_word(word, b"drop") {
        Ok(id_of(a).map(|id| Command::Change(Change::Drop { id })))
    } else if is_word(word, b"prune") {
        Ok(number_of(a).map(|upto| Command::Change(Change::Prune { upto })))
    } else {
        Ok(read_command(a, bare_question(word)))
    }
}

/// The command of a line of three words.
fn three_words(alloc: Global, word: &[u8], a: &[u8], b: &[u8]) -> Result<Option<Command>, Memory>
    ensures ok { IfOk result (λ c. c ≡ three_words word.now a.now b.now) }
    ensures err { OnErr result (IsTrue (takes_name (word.now ∷ a.now ∷ b.now ∷ []))) }
{
    if is_word(word, b"put") {
        put(alloc, a, b)
    } else {
        Ok(read_command(a, question_of_one(alloc, word, b)?))
    }
}

/// The command of a line of four words.
fn four_words(word: &[u8], a: &[u8], b: &[u8], c: &[u8]) -> Option<Command>
    ensures { result ≡ four_words word.now a.now b.now c.now }
{
    read_command(a, question_of_two(word, b, c))
}

fn put(alloc: Global, a: &[u8], b: &[u8]) -> Result<Option<Command>, Memory>
    ensures { IfOk result (λ c. c ≡ both (λ name value. Command.Own (OwnCommand.Put name value)) (name_of a.now) (value_of b.now)) }
{
    let Some(name) = name_of(alloc, a)? else {
        return Ok(None);
    };
    let Some(value) = value_of(alloc, b)? else {
        return Ok(None);
    };
    Ok(Some(Command::Own(OwnCommand::Put { name, value })))
}
