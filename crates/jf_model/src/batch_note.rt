// A batch that only contracts see.
ghost use Rattle.std.specs.Prelude.{◌≡◌};

use jf_ghost::Remembered;
use jf_split::Batch;
use std::marker::Model;

/// What a batch said, for contracts: the keys in their order, each with its value or with `None`. It takes no memory, and
/// holds none of the values.
#[derive(Debug, Drop)]
pub struct BatchNote {
    batch: Remembered<Batch>,
}

impl Model for BatchNote {
    ghost use Rattle.std.specs.Prelude.{List, ℕ, Option};

    ghost Value = { List (List ℕ × Option (List ℕ)) };

    ghost view = { λ n. n.batch.value };
}

impl BatchNote {
    /// The note of a batch.
    pub fn of(batch: &Batch) -> BatchNote
        // The note says what the batch says now.
        ensures { result ≡ batch.now }
    {
        BatchNote {
            batch: Remembered::of(batch),
        }
    }
}
