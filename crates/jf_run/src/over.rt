// What a mode hands back that was done over an open store.
ghost use Rattle.std.specs.Prelude.{◌≡◌};
ghost use Rattle.jf_run.specs.Calls.{disk_of, engine_disk};

use crate::status::Status;
use jf_disk::Disk;
use jf_engine::{Engine, EngineMemory};
use jf_model::Ledger;

/// How a mode ended, the disk, the entries that it made, and what the store still has in memory.
#[derive(Drop)]
pub(crate) struct Over<D> {
    pub status: Status,
    pub disk: D,
    pub entries: Ledger,
    pub memory: Option<EngineMemory>,
}

impl<D: Disk> Over<D> {
    /// The end of a mode, with the engine of its store.
    pub(crate) fn of_engine(status: Status, engine: Engine<D>, entries: Ledger) -> Over<D>
        ensures status { result.status ≡ status }
        ensures resting { disk_of D.Disk result.disk ≡ engine_disk engine }
        ensures entries { result.entries ≡ entries }
    {
        let (disk, memory) = engine.into_parts();
        Over {
            status,
            disk,
            entries,
            memory: Some(memory),
        }
    }
}
