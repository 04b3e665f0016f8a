// Landing a fork with its ancestors.
ghost use Rattle.std.specs.Prelude.{◌≡◌, ◌<◌, ◌≤◌, ◌++◌, length, IfOk, IfErr};
ghost use Rattle.jf_path.specs.Checks.{first_of};
ghost use Rattle.jf_path.specs.Limits.{max_forks};
ghost use Rattle.jf_hash.specs.Roots.{root};
ghost use Rattle.jf_split.specs.Limits.{max_keys};
ghost use Rattle.jf_model.specs.Batches.{key_count};
ghost use Rattle.jf_model.specs.Versions.{newest};
ghost use Rattle.jf_model.specs.declared.entries.Landing.TheVariants as landing;
ghost use Rattle.jf_files.specs.Steps.{Lands};
ghost use Rattle.jf_engine.specs.EngineSteps.{CanStep, HasEnded};
ghost use Rattle.jf_store.specs.declared.tried.Attempt.TheVariants as attempt;
ghost use Rattle.jf_store.specs.Stepped.{IsUnrefused};
ghost use Rattle.jf_store.specs.Ledgers.{state_after_events};
ghost use Rattle.jf_store.specs.Refusals.{broken_faults, ledger_faults, landing_faults};
ghost use Rattle.jf_store.specs.Landings.{land_faults, landed_roots, LandsChainIn, HasLandedChain};
ghost use Rattle.jf_store.specs.Vaults.{FailsIn};
ghost use Rattle.jf_store.specs.Passes.{IsPassOf, HasLanded, HasFailed};

use crate::boxed_vault::{give_back, take_out};
use crate::fault::StoreFault;
use crate::landed_chain::LandedChain;
use crate::pass::Pass;
use crate::root_list::RootList;
use crate::store::Store;
use crate::tried::{Attempt, Tried};
use crate::vault::{LAST, MAX_ENTRIES, MOST_KEYS, Vault};
use jf_disk::Disk;
use jf_engine::{Engine, EngineFault, Landed, Which};
use jf_forks::ForkFault;
use jf_join::{Gate, Workers};
use jf_model::{Entry, Landing};
use jf_split::BatchList;
use std::alloc::Global;
use std::sync::Wait;
use std::thread::Threads;

// Lands batches on an engine that nothing keeps from it.
#[tactic(auto, using(crate::proofs::SteppedLaws::unrefused))]
fn land_batches<D: Disk, H: Threads + Sync, G: Gate>(
    rt: &H,
    alloc: Global,
    engine: &mut Engine<D>,
    batches: &BatchList,
    workers: Workers,
    gate: &G,
) -> Result<Landed, EngineFault>
    requires can { CanStep (Lands batches.now) engine.old }
    requires positive { 1 ≤ length batches.now }
    requires forks { length batches.now ≤ max_forks }
    requires bounded { key_count batches.now ≤ max_keys }
    ensures step { HasEnded (Lands batches.now) engine.old engine.new result }
    ensures answer { IfOk result (λ l. (l.version ≡ engine.new.versions.head) × (l.root ≡ root (newest engine.new.versions)) × (l.moment ≡ engine.new.moment)) }
    ensures unrefused { IsUnrefused engine.old engine.new result }
{
    engine.land_all(rt, alloc, batches, workers, gate)
}

// Lands the batches of a chain likewise, and reads the roots of the versions that they made. The room for these is taken
// before the disk is touched.
fn land_with_roots<D: Disk, H: Threads + Sync, G: Gate>(
    rt: &H,
    alloc: Global,
    engine: &mut Engine<D>,
    batches: BatchList,
    workers: Workers,
    gate: &G,
) -> Result<LandedChain, EngineFault>
    requires can { CanStep (Lands batches) engine.old }
    requires positive { 1 ≤ length batches }
    requires forks { length batches ≤ max_forks }
    requires bounded { key_count batches ≤ max_keys }
    ensures step { HasEnded (Lands batches) engine.old engine.new result }
    ensures answer { IfOk result (λ c. (c.landed.version ≡ engine.new.versions.head) × (c.landed.root ≡ root (newest engine.new.versions)) × (c.landed.moment ≡ engine.new.moment)) }
    ensures batches { IfOk result (λ c. c.batches ≡ batches) }
    ensures roots { IfOk result (λ c. c.roots ≡ landed_roots engine.old.versions batches) }
    ensures unrefused { IsUnrefused engine.old engine.new result }
{
    let Ok(room) = Vec::with_capacity(alloc, batches.len() as usize) else {
        return Err(EngineFault::Memory);
    };
    engine.know();
    let first = engine.state().head + 1;
    match land_batches(rt, alloc, engine, &batches, workers, gate) {
        Ok(landed) => {
            let roots = RootList::of(engine, first, room);
            Ok(LandedChain {
                landed,
                batches,
                roots,
            })
        }
        Err(fault) => Err(fault),
    }
}

impl<D: Disk> Vault<D> {
    // Why no entry can be added, if none can.
    pub(crate) fn entry_fault(&self) -> Option<StoreFault>
        ensures { result ≡ first_of (broken_faults self.now.events ++ ledger_faults (state_after_events self.now.start self.now.events)) }
    {
        if self.is_broken() {
            return Some(StoreFault::Broken);
        }
        if self.entries.len() as u64 >= MAX_ENTRIES {
            return Some(StoreFault::Last(Which::Entries));
        }
        None
    }

    // Why so many versions can't be landed on the head, if they can't.
    fn room_fault(&self, count: u64) -> Option<StoreFault>
        requires { count ≤ max_forks }
        ensures { result ≡ first_of (landing_faults count (state_after_events self.now.start self.now.events)) }
    {
        self.engine.know();
        let head = self.engine.state().head;
        if head > LAST - count {
            return Some(StoreFault::Last(Which::Version));
        }
        let Some(snapshot) = self.engine.at(head) else {
            unreachable!()
        };
        if snapshot.count() > MOST_KEYS {
            return Some(StoreFault::Last(Which::Keys));
        }
        None
    }

    // Why a fork can't be landed with its ancestors, if it can't.
    fn land_fault(&self, id: u64) -> Option<StoreFault>
        ensures { result ≡ first_of (land_faults id self.now.start self.now.events) }
    {
        if let Some(fault) = self.entry_fault() {
            return Some(fault);
        }
        match self.forks.chain_len(id) {
            Ok(count) => self.room_fault(count),
            Err(ForkFault::Unknown) => Some(StoreFault::Unknown),
            Err(ForkFault::Gone) => Some(StoreFault::Gone),
            Err(ForkFault::TooMany(keys)) => Some(StoreFault::TooMany(keys)),
            Err(_) => unreachable!(),
        }
    }

    // Lands a fork with its ancestors for a pass: their batches in one record and one entry, and hands them back, with the
    // root of each version. All memory is taken before the disk is touched. After a landing the forks that stand on it
    // are live; one at which the disk failed is a mark; every other refusal leaves all as it was.
    pub(crate) fn land_fork<H: Threads + Sync, G: Gate>(
        &mut self,
        rt: &H,
        alloc: Global,
        pass: u64,
        id: u64,
        workers: Workers,
        gate: &G,
    ) -> Result<LandedChain, StoreFault>
        requires { pass < self.old.start.passes }
        ensures start { self.new.start ≡ self.old.start }
        ensures landed { IfOk result (LandsChainIn pass id self.old self.new) }
        ensures failed { IfErr result (FailsIn pass (attempt.Lands (landing.Fork id)) (land_faults id) self.old self.new) }
    {
        if let Some(fault) = self.land_fault(id) {
            return Err(fault);
        }
        self.forks.know();
        let Ok(batches) = self.forks.chain(alloc, id) else {
            return Err(StoreFault::Memory);
        };
        if self.entries.reserve(1).is_err() {
            return Err(StoreFault::Memory);
        }
        match land_with_roots(rt, alloc, &mut self.engine, batches, workers, gate) {
            Ok(chain) => {
                self.forks.settle(Some(id));
                let root = chain.landed.root;
                self.entries.push_reserved(Entry::Landed {
                    owner: pass,
                    version: chain.landed.version,
                    how: Landing::Fork(id),
                    root,
                    moment: chain.landed.moment,
                });
                Ok(chain)
            }
            Err(EngineFault::DiskFault) => {
                self.tried = Some(Tried {
                    pass,
                    attempt: Attempt::Lands(Landing::Fork(id)),
                });
                Err(StoreFault::DiskFault)
            }
            Err(EngineFault::Memory) => Err(StoreFault::Memory),
            Err(_) => unreachable!(),
        }
    }
}

impl<D: Disk> Pass<D> {
    /// Lands a fork and its live ancestors on the head, the oldest first: a version for each, in one record and one
    /// entry. The forks that stand on it stay live, and its children have the head as parent; all others are gone. It
    /// waits for its turn. At most `workers` threads work; neither their number nor the gate has an effect on
    /// the result, which names the last version.
    ///
    /// Refusals; after each but `DiskFault` store and disk are as the events that the pass has then seen say:
    ///
    /// - `Broken`: an earlier call through this store met a fault of the disk.
    /// - `Last(Entries)`: the ledger has 2^62 entries.
    /// - `Unknown`: no fork of this number was made yet.
    /// - `Gone`: the fork is no longer live.
    /// - `TooMany`: the fork and its ancestors have more than 10,000 keys, added up; it gives their number.
    /// - `Last(Version)`: the last version would be greater than 2^64 - 2.
    /// - `Last(Keys)`: the head's map has more than 2^62 entries.
    /// - `Memory`: memory ran out.
    /// - `DiskFault`: a call on the disk failed. The last event is then the mark of this call, and each further call
    ///   through this store is refused. After a crash the files represent the versions from before this landing, or
    ///   from after it.
    pub fn land<H: Threads + Wait + Sync, G: Gate>(
        &mut self,
        rt: &H,
        alloc: Global,
        store: &Store<D>,
        id: u64,
        workers: Workers,
        gate: &G,
    ) -> Result<Landed, StoreFault>
        // The pass is one of this store's.
        requires { IsPassOf self.old store.now }
        // The fork and its ancestors are versions, and the last one is returned.
        ensures landed { IfOk result (HasLanded store.now.start (landing.Fork id) self.old self.new) }
        // The disk failed in it, and the mark was set; or it was refused over what the pass has seen, and did nothing.
        ensures failed { IfErr result (HasFailed store.now.start (attempt.Lands (landing.Fork id)) (land_faults id) self.old self.new) }
    {
        let chain = self.land_chain(rt, alloc, store, id, workers, gate)?;
        Ok(chain.landed)
    }

    /// Lands a fork and its live ancestors as `land` does, with its refusals, and hands back what it landed: the batch
    /// that made each version, and the root of each, the oldest first. All memory is taken before the disk is touched.
    pub fn land_chain<H: Threads + Wait + Sync, G: Gate>(
        &mut self,
        rt: &H,
        alloc: Global,
        store: &Store<D>,
        id: u64,
        workers: Workers,
        gate: &G,
    ) -> Result<LandedChain, StoreFault>
        // The pass is one of this store's.
        requires { IsPassOf self.old store.now }
        // The fork and its ancestors are versions, and the batch and root of each are handed back.
        ensures landed { IfOk result (HasLandedChain store.now.start id self.old self.new) }
        // The disk failed in it, and the mark was set; or it was refused over what the pass has seen, and did nothing.
        ensures failed { IfErr result (HasFailed store.now.start (attempt.Lands (landing.Fork id)) (land_faults id) self.old self.new) }
    {
        let mut vault = take_out(rt, &mut self.seat, &store.turn);
        let number = self.seat.number();
        let chain = vault.land_fork(rt, alloc, number, id, workers, gate);
        let newest = vault.newest(store.window.is_some());
        self.marked = give_back(&mut self.seat, &store.turn, vault);
        self.show(rt, store, newest);
        chain
    }
}
