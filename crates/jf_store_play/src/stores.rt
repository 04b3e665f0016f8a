// A store with its passes.
ghost use Rattle.std.specs.Prelude.{◌≡◌, ◌≤◌, length, IfOk};
ghost use Rattle.jf_path.specs.Limits.{max_sessions};
ghost use Rattle.jf_store.specs.Passes.{AreNewPasses};

use jf_disk::MemDisk;
use jf_engine::Engine;
use jf_store::{Pass, Store};
use std::alloc::Global;
use std::test::Fail;

/// A store over an engine, and its passes, 1 to 16, in the order of their numbers. Fails if the engine is broken.
pub fn new_passes(
    alloc: Global,
    engine: Box<Engine<MemDisk>>,
    passes: u64,
) -> Result<(Store<MemDisk>, Vec<Pass<MemDisk>>), Fail>
    requires { (1 ≤ passes) × (passes ≤ max_sessions) }
    ensures count { IfOk result (λ r. r.0.start.passes ≡ passes) }
    ensures passes { IfOk result (λ r. (length r.1.items ≡ passes) × AreNewPasses r.0 r.1.items 0) }
{
    if engine.is_broken() {
        return Err(Fail::new("broken"));
    }
    match Store::new(alloc, Box::into_inner(engine), passes) {
        Ok(made) => Ok(made),
        Err(_) => Err(Fail::new("no memory")),
    }
}
