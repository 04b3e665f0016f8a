// The ledger: the list of entries that a run keeps.
ghost use Rattle.std.specs.Prelude.{◌≡◌, [], ◌∷◌, ◌++◌, length, OnOk, OnErr};

use crate::entries::Entry;
use jf_path::Memory;
use std::alloc::Global;
use std::marker::Model;

/// The entries of a run, in the order in which they were made.
#[derive(Debug, Drop)]
pub struct Ledger {
    entries: Vec<Entry>,
}

impl Model for Ledger {
    ghost use Rattle.std.specs.Prelude.{List};
    ghost use Rattle.jf_model.specs.declared.entries.Entry.{Entry};

    ghost Value = { List Entry };

    ghost view = { λ l. l.entries.items };
}

impl Ledger {
    /// A ledger of no entries.
    pub fn new(alloc: Global) -> Ledger
        // The result has no entries.
        ensures { result ≡ [] }
    {
        Ledger {
            entries: Vec::new(alloc),
        }
    }

    /// The ledger of these entries, the first one first. It takes no memory.
    pub fn of(entries: Vec<Entry>) -> Ledger
        // The result has these entries, in this order.
        ensures { result ≡ entries.items }
    {
        Ledger { entries }
    }

    /// The number of entries.
    pub fn len(&self) -> u64
        // The result is the number of entries.
        ensures { result ≡ length self.now }
    {
        self.entries.len() as u64
    }

    /// The entries, the first one first.
    pub fn as_slice(&self) -> &[Entry]
        // The slice holds the entries of the ledger.
        ensures { result.now ≡ self.now }
    {
        &self.entries
    }

    /// Appends an entry. If it is out of memory, the ledger is unchanged and the entry is dropped.
    pub fn push(&mut self, entry: Entry) -> Result<(), Memory>
        // After Ok, the ledger is the old one with the entry at its end.
        ensures ok { OnOk result (self.new ≡ self.old ++ entry ∷ []) }
        // After Err, the ledger is unchanged.
        ensures err { OnErr result (self.new ≡ self.old) }
    {
        self.entries.push(entry)?;
        Ok(())
    }
}
