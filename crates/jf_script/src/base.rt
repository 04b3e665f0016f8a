// Words that name maps: `head`, `vN` for a version, `pN` for a pinned place, and `fN` for a fork.
ghost use Rattle.std.specs.Prelude.{◌≡◌};
ghost use Rattle.jf_script.specs.Commands.{base_of, parent_of, id_of};

use crate::command::Base;
use jf_model::Parent;
use jf_text::{is_word, number_of};

/// The stored map that a word names: `head`, `vN` or `pN`.
#[tactic(auto, unfolding(crate::specs::Commands::base_of))]
pub(crate) fn base_of(word: &[u8]) -> Option<Base>
    ensures { result ≡ base_of word.now }
{
    if is_word(word, b"head") {
        return Some(Base::Head);
    }
    let (letter, digits) = word.split_first()?;
    match letter {
        b'v' => number_of(digits).map(Base::Version),
        b'p' => number_of(digits).map(Base::Place),
        _ => None,
    }
}

/// The id of a fork, from `fN`.
pub(crate) fn id_of(word: &[u8]) -> Option<u64>
    ensures { result ≡ id_of word.now }
{
    let (letter, digits) = word.split_first()?;
    match letter {
        b'f' => number_of(digits),
        _ => None,
    }
}

/// What a fork may be made on: `head` or `fN`.
pub(crate) fn parent_of(word: &[u8]) -> Option<Parent>
    ensures { result ≡ parent_of word.now }
{
    if is_word(word, b"head") {
        Some(Parent::Head)
    } else {
        id_of(word).map(Parent::Fork)
    }
}
