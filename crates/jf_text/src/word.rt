// The words of a line are the pieces between its spaces, so two spaces in a row have an empty word between them.
ghost use Rattle.std.specs.Prelude.{◌≡◌, [], ◌∷◌};
ghost use Rattle.std.specs.Option.{option_map_or};
ghost use Rattle.jf_text.specs.Words.{words, is_word};

use memchr::memchr;

/// The bytes before the first space, and the bytes after it, or `None` if there is no space.
pub fn split_word(text: &[u8]) -> (&[u8], Option<&[u8]>)
    ensures { words text.now ≡ result.0.now ∷ option_map_or (λ rest. words rest.now) result.1 [] }
{
    match memchr(b' ', text) {
        Some(at) => (&text[..at], Some(&text[at + 1..])),
        None => (text, None),
    }
}

/// Whether a word is this keyword.
pub fn is_word(word: &[u8], keyword: &[u8]) -> bool
    ensures { result ≡ is_word word.now keyword.now }
{
    word == keyword
}
