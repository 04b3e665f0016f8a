// The scripts of sessions, each as its bytes.
ghost use Rattle.std.specs.Prelude.{◌≡◌, ◌++◌, ◌∷◌, [], length, OnOk};

use jf_path::{Bytes, Memory};
use std::alloc::Global;
use std::marker::Model;

/// The scripts of sessions, the first one first, each as its bytes.
#[derive(Debug, Drop)]
pub struct Scripts {
    scripts: Vec<Bytes>,
}

impl Model for Scripts {
    ghost use Rattle.std.specs.Prelude.{List, ℕ};

    ghost Value = { List (List ℕ) };

    ghost view = { λ s. s.scripts.items };
}

impl Scripts {
    /// No scripts.
    pub(crate) fn new(alloc: Global) -> Scripts
        ensures { result ≡ [] }
    {
        Scripts {
            scripts: Vec::new(alloc),
        }
    }

    /// Adds a copy of a script.
    pub(crate) fn push(&mut self, alloc: Global, script: &[u8]) -> Result<(), Memory>
        ensures { OnOk result (self.new ≡ self.old ++ script.now ∷ []) }
    {
        let script = Bytes::copy_of(alloc, script)?;
        self.scripts.push(script)?;
        Ok(())
    }

    /// How many there are.
    pub fn len(&self) -> u64
        // The number of scripts.
        ensures { result ≡ length self.now }
    {
        self.scripts.len() as u64
    }

    /// The scripts, the first one first.
    pub fn as_slice(&self) -> &[Bytes]
        // The scripts, in the order of their sessions.
        ensures { result.now ≡ self.now }
    {
        &self.scripts
    }
}
