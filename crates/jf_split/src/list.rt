// A list of batches.
ghost use Rattle.std.specs.Prelude.{◌≡◌, [], ◌∷◌, ◌++◌, length, OnOk, OnErr};

use crate::batch::Batch;
use jf_path::Memory;
use std::alloc::Global;
use std::marker::Model;

/// Batches, one after another.
#[derive(Debug, Drop)]
pub struct BatchList {
    batches: Vec<Batch>,
}

impl Model for BatchList {
    ghost use Rattle.std.specs.Prelude.{List, ℕ, Option};

    ghost Value = { List (List (List ℕ × Option (List ℕ))) };

    ghost view = { λ l. l.batches.items };
}

impl BatchList {
    /// An empty list.
    pub fn new(alloc: Global) -> BatchList
        // The result has no batches.
        ensures { result ≡ [] }
    {
        BatchList {
            batches: Vec::new(alloc),
        }
    }

    /// The number of batches.
    pub fn len(&self) -> u64
        // The result is the number of batches.
        ensures { result ≡ length self.now }
    {
        self.batches.len() as u64
    }

    /// The batches in their order.
    pub fn as_slice(&self) -> &[Batch]
        // The slice holds the batches of the list.
        ensures { result.now ≡ self.now }
    {
        &self.batches
    }

    /// Adds a batch at the end. If memory runs out, the batch is dropped, and the list is unchanged.
    pub fn push(&mut self, batch: Batch) -> Result<(), Memory>
        // After Ok, the list is the old one with the batch at its end.
        ensures ok { OnOk result (self.new ≡ self.old ++ batch ∷ []) }
        // After Err, the list is unchanged.
        ensures err { OnErr result (self.new ≡ self.old) }
    {
        self.batches.push(batch)?;
        Ok(())
    }
}
