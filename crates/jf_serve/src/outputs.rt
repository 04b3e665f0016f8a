// What sessions wrote, and how they ended.
ghost use Rattle.std.specs.Prelude.{◌≡◌, length};

use jf_history::End;
use jf_path::Bytes;
use std::marker::Model;

/// The outputs of sessions, in the order of their numbers, each as its bytes.
#[derive(Debug, Drop)]
pub struct Outputs {
    pub(crate) texts: Vec<Bytes>,
}

impl Model for Outputs {
    ghost use Rattle.std.specs.Prelude.{List, ℕ};

    ghost Value = { List (List ℕ) };

    ghost view = { λ o. o.texts.items };
}

impl Outputs {
    /// How many there are.
    pub fn len(&self) -> u64
        // The number of outputs.
        ensures { result ≡ length self.now }
    {
        self.texts.len() as u64
    }

    /// The outputs, that of session 0 first.
    pub fn as_slice(&self) -> &[Bytes]
        // The outputs, in the order of their sessions.
        ensures { result.now ≡ self.now }
    {
        &self.texts
    }
}

/// How sessions ended, in the order of their numbers.
#[derive(Debug, Drop)]
pub struct Ends {
    pub(crate) ends: Vec<End>,
}

impl Model for Ends {
    ghost use Rattle.std.specs.Prelude.{List};
    ghost use Rattle.jf_history.specs.declared.end.End.{End};

    ghost Value = { List End };

    ghost view = { λ e. e.ends.items };
}

impl Ends {
    /// How many there are.
    pub fn len(&self) -> u64
        // The number of ends.
        ensures { result ≡ length self.now }
    {
        self.ends.len() as u64
    }

    /// The ends, that of session 0 first.
    pub fn as_slice(&self) -> &[End]
        // The ends, in the order of their sessions.
        ensures { result.now ≡ self.now }
    {
        &self.ends
    }
}
