// Writing a new generation of the files.
ghost use Rattle.std.specs.Prelude.{◌≡◌, ◌+◌, ◌<◌, IfOk, IfErr};
ghost use Rattle.jf_path.specs.Checks.{first_of};
ghost use Rattle.jf_files.specs.Steps.{Compacts};
ghost use Rattle.jf_engine.specs.EngineSteps.{CanStep, HasEnded};
ghost use Rattle.jf_store.specs.declared.tried.Attempt.TheVariants as attempt;
ghost use Rattle.jf_store.specs.Stepped.{IsUnrefused};
ghost use Rattle.jf_store.specs.Vaults.{FailsIn};
ghost use Rattle.jf_store.specs.Passes.{IsPassOf, HasFailed};
ghost use Rattle.jf_store.specs.Compactions.{compact_faults, CompactsIn, HasCompacted};

use crate::boxed_vault::{give_back, take_out};
use crate::fault::StoreFault;
use crate::pass::Pass;
use crate::store::Store;
use crate::tried::{Attempt, Tried};
use crate::vault::{LAST, Vault};
use jf_disk::Disk;
use jf_engine::{Engine, EngineFault, Which};
use jf_model::Entry;
use std::alloc::Global;
use std::sync::Wait;

// Writes a new generation of an engine that nothing keeps from it. Returns the new one.
#[tactic(auto, using(crate::proofs::SteppedLaws::unrefused))]
fn compact<D: Disk>(alloc: Global, engine: &mut Engine<D>) -> Result<u64, EngineFault>
    requires { CanStep Compacts engine.old }
    ensures step { HasEnded Compacts engine.old engine.new result }
    ensures answer { IfOk result (λ g. g ≡ engine.old.generation + 1) }
    ensures unrefused { IsUnrefused engine.old engine.new result }
{
    engine.compact(alloc)
}

impl<D: Disk> Vault<D> {
    // Why no new generation can be written, if none can.
    fn compact_fault(&self) -> Option<StoreFault>
        ensures { result ≡ first_of (compact_faults self.now.start self.now.events) }
    {
        if let Some(fault) = self.entry_fault() {
            return Some(fault);
        }
        if self.engine.state().generation >= LAST {
            return Some(StoreFault::Last(Which::Generation));
        }
        None
    }

    // Writes a new generation for a pass, and returns it. All memory is taken before the disk is touched. A new
    // generation is one entry more; one at which the disk failed is a mark; every other refusal leaves all as it was.
    pub(crate) fn compact(&mut self, alloc: Global, pass: u64) -> Result<u64, StoreFault>
        requires { pass < self.old.start.passes }
        ensures start { self.new.start ≡ self.old.start }
        ensures compacted { IfOk result (CompactsIn pass self.old self.new) }
        ensures failed { IfErr result (FailsIn pass attempt.Compacts compact_faults self.old self.new) }
    {
        if let Some(fault) = self.compact_fault() {
            return Err(fault);
        }
        if self.entries.reserve(1).is_err() {
            return Err(StoreFault::Memory);
        }
        match compact(alloc, &mut self.engine) {
            Ok(generation) => {
                self.entries.push_reserved(Entry::Compacted {
                    owner: pass,
                    generation,
                });
                Ok(generation)
            }
            Err(EngineFault::DiskFault) => {
                self.tried = Some(Tried {
                    pass,
                    attempt: Attempt::Compacts,
                });
                Err(StoreFault::DiskFault)
            }
            Err(EngineFault::Memory) => Err(StoreFault::Memory),
            Err(_) => unreachable!(),
        }
    }
}

impl<D: Disk> Pass<D> {
    /// Writes all that the store keeps as one checkpoint of the next generation, and returns its number. The versions
    /// and forks stay. It waits for its turn.
    ///
    /// Refusals; after each but `DiskFault` store and disk are as the events that the pass has then seen say:
    ///
    /// - `Broken`: an earlier call through this store met a fault of the disk.
    /// - `Last(Entries)`: the ledger has 2^62 entries.
    /// - `Last(Generation)`: the generation is 2^64 - 2.
    /// - `Memory`: memory ran out.
    /// - `DiskFault`: a call on the disk failed. The last event is then the mark of this call, and each further call
    ///   through this store is refused. After a crash the files represent the same versions, in the old generation or
    ///   in the new one.
    pub fn compact<H: Wait>(
        &mut self,
        rt: &H,
        alloc: Global,
        store: &Store<D>,
    ) -> Result<u64, StoreFault>
        // The pass is one of this store's.
        requires { IsPassOf self.old store.now }
        // A checkpoint of the next generation was written, and its number is returned.
        ensures compacted { IfOk result (HasCompacted store.now.start self.old self.new) }
        // The disk failed in it, and the mark was set; or it was refused over what the pass has seen, and did nothing.
        ensures failed { IfErr result (HasFailed store.now.start attempt.Compacts compact_faults self.old self.new) }
    {
        let mut vault = take_out(rt, &mut self.seat, &store.turn);
        let number = self.seat.number();
        let compacted = vault.compact(alloc, number);
        let newest = vault.newest(store.window.is_some());
        self.marked = give_back(&mut self.seat, &store.turn, vault);
        self.show(rt, store, newest);
        compacted
    }
}
