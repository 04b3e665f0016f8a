// How a store started: what is kept of it for as long as the store is open, and how contracts see it.
ghost use Rattle.std.specs.Prelude.{◌≡◌};
ghost use Rattle.jf_store.specs.Starts.{IsStartOf};

use jf_disk::Disk;
use jf_engine::{Engine, VersionsNote};
use std::marker::Model;

/// How a store started. No value of this type is made.
#[derive(Drop)]
pub struct Start {
    nothing: u8,
}

impl Model for Start {
    ghost use Rattle.std.specs.Prelude.{None, []};
    ghost use Rattle.std.specs.Coded.{codes};
    ghost use Rattle.jf_hash.specs.Codes.{map_code};
    ghost use Rattle.jf_model.specs.Versions.{new_store};
    ghost use Rattle.jf_model.specs.States.{state_when_opened};
    ghost use Rattle.jf_store.specs.Starts.{Start};

    ghost Value = { Start };

    ghost coded = { Prim.hlevel (codes, map_code) };

    ghost view = { λ s. record { state = state_when_opened new_store 1; history = None; moment = s.nothing; faults = 0; passes = 0; board = record { words = 0; slots = 0; views_name = 0; atom = 0; block = 0; offset = 0; slot_names = [] } } };
}

/// The engine's versions when a store was made, for contracts; the generation, the disk's moment and its count of faults
/// then; and the number of passes.
#[derive(Drop)]
pub(crate) struct StartNote {
    pub versions: VersionsNote,
    pub generation: u64,
    pub moment: u64,
    pub faults: u64,
    pub passes: u64,
}

impl StartNote {
    // What is kept of an engine's versions and numbers, for a store of so many passes.
    pub(crate) fn of<D: Disk>(engine: &Engine<D>, passes: u64) -> StartNote
        ensures note { IsStartOf engine.now result }
        ensures passes { result.passes ≡ passes }
    {
        StartNote {
            versions: engine.versions(),
            generation: engine.state().generation,
            moment: engine.disk().moment(),
            faults: engine.disk().faults(),
            passes,
        }
    }
}
