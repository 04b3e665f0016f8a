// Making forks and dropping them, which leaves the disk alone.
ghost use Rattle.std.specs.Prelude.{◌≡◌, ◌<◌, IfOk, IfErr};
ghost use Rattle.jf_path.specs.Checks.{first_of};
ghost use Rattle.jf_store.specs.Ledgers.{state_after_events};
ghost use Rattle.jf_store.specs.Refusals.{make_faults, drop_faults};
ghost use Rattle.jf_store.specs.Forkings.{parent_faults, MakesIn, DropsIn, RefusesIn, HasMade, HasDropped, HasBeenRefused};
ghost use Rattle.jf_store.specs.Passes.{IsPassOf};

use crate::boxed_vault::{give_back, take_out};
use crate::fault::StoreFault;
use crate::pass::Pass;
use crate::store::Store;
use crate::vault::Vault;
use jf_disk::Disk;
use jf_forks::Forked;
use jf_model::{BatchNote, Entry, Parent};
use jf_path::MAX_FORKS;
use jf_split::Batch;
use std::alloc::Global;
use std::sync::Wait;

impl<D: Disk> Vault<D> {
    // Why a parent is missing, if it is; the head never is.
    fn parent_fault(&self, parent: Parent) -> Option<StoreFault>
        ensures { result ≡ first_of (parent_faults parent (state_after_events self.now.start self.now.events)) }
    {
        match parent {
            Parent::Head => None,
            Parent::Fork(id) => self.fork_fault(id),
        }
    }

    // Why no fork can be made on a parent, if none can.
    fn make_fault(&self, parent: Parent) -> Option<StoreFault>
        ensures { result ≡ first_of (make_faults parent self.now.start self.now.events) }
    {
        if let Some(fault) = self.entry_fault() {
            return Some(fault);
        }
        if let Some(fault) = self.parent_fault(parent) {
            return Some(fault);
        }
        if self.forks.live() >= MAX_FORKS {
            return Some(StoreFault::Full);
        }
        None
    }

    // Makes a fork of a batch for a pass. All memory is taken before anything changes. A fork is one entry more; a refusal
    // leaves all as it was.
    pub(crate) fn make_fork(
        &mut self,
        alloc: Global,
        pass: u64,
        parent: Parent,
        batch: &Batch,
    ) -> Result<Forked, StoreFault>
        requires { pass < self.old.start.passes }
        ensures start { self.new.start ≡ self.old.start }
        ensures made { IfOk result (MakesIn pass parent batch.now self.old self.new) }
        ensures refused { IfErr result (RefusesIn (make_faults parent) self.old self.new) }
    {
        if let Some(fault) = self.make_fault(parent) {
            return Err(fault);
        }
        let _ = batch.as_slice();
        if self.entries.reserve(1).is_err() {
            return Err(StoreFault::Memory);
        }
        self.engine.know();
        let head = self.engine.state().head;
        let Some(snapshot) = self.engine.at(head) else {
            unreachable!()
        };
        match self.forks.make(alloc, snapshot, parent, batch) {
            Ok(forked) => {
                let root = forked.root;
                self.entries.push_reserved(Entry::Made {
                    owner: pass,
                    fork: forked.id,
                    parent,
                    batch: BatchNote::of(batch),
                    root,
                });
                Ok(forked)
            }
            Err(_) => Err(StoreFault::Memory),
        }
    }

    // Why a fork can't be dropped, if it can't.
    fn drop_fault(&self, id: u64) -> Option<StoreFault>
        ensures { result ≡ first_of (drop_faults id self.now.start self.now.events) }
    {
        if let Some(fault) = self.entry_fault() {
            return Some(fault);
        }
        self.fork_fault(id)
    }

    // Drops a fork and those that stand on it, for a pass, and returns how many are gone. It is one entry more; a refusal
    // leaves all as it was.
    pub(crate) fn drop_fork(&mut self, pass: u64, id: u64) -> Result<u64, StoreFault>
        requires { pass < self.old.start.passes }
        ensures start { self.new.start ≡ self.old.start }
        ensures dropped { IfOk result (DropsIn pass id self.old self.new) }
        ensures refused { IfErr result (RefusesIn (drop_faults id) self.old self.new) }
    {
        if let Some(fault) = self.drop_fault(id) {
            return Err(fault);
        }
        if self.entries.reserve(1).is_err() {
            return Err(StoreFault::Memory);
        }
        match self.forks.drop_fork(id) {
            Ok(count) => {
                self.entries.push_reserved(Entry::Dropped {
                    owner: pass,
                    fork: id,
                });
                Ok(count)
            }
            Err(_) => unreachable!(),
        }
    }
}

impl<D: Disk> Pass<D> {
    /// Makes a fork of a batch, on the head or on a live fork. Its number is how many forks were made before. It never
    /// touches the disk. It waits for its turn.
    ///
    /// Refusals; the store is as the events that the pass has then seen say:
    ///
    /// - `Broken`: an earlier call through this store met a fault of the disk.
    /// - `Last(Entries)`: the ledger has 2^62 entries.
    /// - `Unknown`: the parent is a fork that was not made yet.
    /// - `Gone`: the parent is a fork that is no longer live.
    /// - `Full`: 1,024 forks are live.
    /// - `Memory`: memory ran out.
    pub fn fork<H: Wait>(
        &mut self,
        rt: &H,
        alloc: Global,
        store: &Store<D>,
        parent: Parent,
        batch: &Batch,
    ) -> Result<Forked, StoreFault>
        // The pass is one of this store's.
        requires { IsPassOf self.old store.now }
        // The fork is live, and its number and root are returned.
        ensures made { IfOk result (HasMade store.now.start parent batch.now self.old self.new) }
        // It was refused over what the pass has seen, and did nothing.
        ensures refused { IfErr result (HasBeenRefused store.now.start (make_faults parent) self.old self.new) }
    {
        let mut vault = take_out(rt, &mut self.seat, &store.turn);
        let number = self.seat.number();
        let forked = vault.make_fork(alloc, number, parent, batch);
        let newest = vault.newest(store.window.is_some());
        self.marked = give_back(&mut self.seat, &store.turn, vault);
        self.show(rt, store, newest);
        forked
    }

    /// Drops a fork and those that stand on it, and returns how many are gone. It never touches the disk. It waits for
    /// its turn.
    ///
    /// Refusals; the store is as the events that the pass has then seen say:
    ///
    /// - `Broken`: an earlier call through this store met a fault of the disk.
    /// - `Last(Entries)`: the ledger has 2^62 entries.
    /// - `Unknown`: no fork of this number was made yet.
    /// - `Gone`: the fork is no longer live.
    /// - `Memory`: memory ran out.
    pub fn drop_fork<H: Wait>(
        &mut self,
        rt: &H,
        store: &Store<D>,
        id: u64,
    ) -> Result<u64, StoreFault>
        // The pass is one of this store's.
        requires { IsPassOf self.old store.now }
        // The fork and those on it are gone, and their number is returned.
        ensures dropped { IfOk result (HasDropped store.now.start id self.old self.new) }
        // It was refused over what the pass has seen, and did nothing.
        ensures refused { IfErr result (HasBeenRefused store.now.start (drop_faults id) self.old self.new) }
    {
        let mut vault = take_out(rt, &mut self.seat, &store.turn);
        let number = self.seat.number();
        let dropped = vault.drop_fork(number, id);
        let newest = vault.newest(store.window.is_some());
        self.marked = give_back(&mut self.seat, &store.turn, vault);
        self.show(rt, store, newest);
        dropped
    }
}
