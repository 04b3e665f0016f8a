// Which lines can't give an entry, told before they are done.
ghost use Rattle.std.specs.Prelude.{◌≡◌, None, IsTrue};
ghost use Rattle.jf_model.specs.States.{State};
ghost use Rattle.jf_answers.specs.Own.{Own};
ghost use Rattle.jf_answers.specs.Answers.{answer};
ghost use Rattle.jf_session.specs.Taking.{is_store_word};

use jf_text::{is_word, split_word};

// Whether the line is known to give no entry, whatever the state.
pub(crate) fn is_quiet(line: &[u8]) -> bool
    ensures { IsTrue result → (s : State) (own : Own) → (answer s own line.now).entry ≡ None }
{
    let (word, _) = split_word(line);
    !is_store_word(word)
}

// Whether the commands that begin with this word change the store.
fn is_store_word(word: &[u8]) -> bool
    ensures { result ≡ is_store_word word.now }
{
    is_word(word, b"commit")
        || is_word(word, b"fork")
        || is_word(word, b"land")
        || is_word(word, b"drop")
        || is_word(word, b"prune")
        || is_word(word, b"compact")
}
