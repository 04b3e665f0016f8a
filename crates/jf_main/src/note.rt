// What standard error says of a call beside its status.
ghost use Rattle.std.specs.Prelude.{◌≡◌, Some};
ghost use Rattle.jf_main.specs.Notes.{generate_note, names_generate, note_text};

use std::fmt;

/// What standard error says of a call beside its status (docs/FORMATS.md, "Calling the program").
#[derive(Clone, Copy, Debug, PartialEq, Eq, Drop)]
pub enum CallNote {
    /// The program was called without a word: one example.
    Example,
    /// A generated script was run over a store that wasn't new. This was its newest version.
    InUse(u64),
}

impl CallNote {
    /// The note after a call over these words that opened a store with this newest version.
    pub fn after_call(words: &[String], start: Option<u64>) -> Option<CallNote>
        ensures { result ≡ generate_note words.now start }
    {
        match start {
            Some(head) if head > 0 && names_generate(words) => Some(CallNote::InUse(head)),
            _ => None,
        }
    }
}

// Whether the words after the folder name the mode `generate`.
fn names_generate(words: &[String]) -> bool
    ensures { result ≡ names_generate words.now }
{
    match words {
        [mode, ..] => mode.as_str() == "generate",
        _ => false,
    }
}

impl fmt::Display for CallNote {
    ghost output = { λ n. Some (note_text n) };

    fn fmt<W: fmt::Write>(&self, f: &mut fmt::Formatter<W>) -> fmt::Result {
        match *self {
            CallNote::Example => write!(
                f,
                "example: printf 'put 61 =31\\ncommit\\nget head 61\\n' | jellystore - run"
            ),
            CallNote::InUse(head) => write!(
                f,
                "note: the store was in use already, at version {head}: generate lands on it, and may retire older versions"
            ),
        }
    }
}
