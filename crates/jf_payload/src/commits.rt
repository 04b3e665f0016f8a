// Several landings, the oldest first, are one record, so that a crash keeps all of them or loses all of them.
ghost use Rattle.std.specs.Prelude.{◌≡◌, [], ◌∷◌, ◌++◌, length, OnOk, OnErr};

use crate::records::Commit;
use jf_path::Memory;
use std::alloc::Global;
use std::marker::Model;

/// Landings, the oldest first.
#[derive(Debug, Drop)]
pub struct Commits {
    commits: Vec<Commit>,
}

impl Model for Commits {
    ghost use Rattle.std.specs.Prelude.{List};
    ghost use Rattle.jf_payload.specs.declared.records.Commit.{Commit};

    ghost Value = { List Commit };

    ghost view = { λ c. c.commits.items };
}

impl Commits {
    /// An empty list.
    pub fn new(alloc: Global) -> Commits
        ensures { result ≡ [] }
    {
        Commits {
            commits: Vec::new(alloc),
        }
    }

    /// The number of landings.
    pub fn len(&self) -> u64
        ensures { result ≡ length self.now }
    {
        self.commits.len() as u64
    }

    /// The landings, the oldest first.
    pub fn as_slice(&self) -> &[Commit]
        ensures { result.now ≡ self.now }
    {
        &self.commits
    }

    /// Adds a landing at the end. If memory runs out, the landing is dropped and the list is unchanged.
    pub fn push(&mut self, commit: Commit) -> Result<(), Memory>
        ensures ok { OnOk result (self.new ≡ self.old ++ commit ∷ []) }
        ensures err { OnErr result (self.new ≡ self.old) }
    {
        self.commits.push(commit)?;
        Ok(())
    }
}
