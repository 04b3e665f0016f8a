// Retiring versions: the gate is raised, the pins are scanned, the board is cut, and the engine gets the floor.
ghost use Rattle.std.specs.Prelude.{◌≡◌, ◌+◌, ◌*◌, ◌<◌, ◌≤◌, IfOk, IfErr};
ghost use Rattle.jf_path.specs.Limits.{max_pins};
ghost use Rattle.jf_path.specs.Checks.{first_of};
ghost use Rattle.jf_store.specs.Passes.{IsPassOf, ArePins};
ghost use Rattle.jf_store.specs.Prunings.{prune_faults, HasSwept, PrunesIn, FailsPruning, HasPruned, HasFailedPruning};

use crate::boxed_vault::{give_back, take_out};
use crate::fault::StoreFault;
use crate::pass::Pass;
use crate::pins::Pins;
use crate::pruned::Pruned;
use crate::store::Store;
use crate::tried::{Attempt, Tried};
use crate::vault::{MAX_ENTRIES, Vault};
use jf_board::{Board, Place, Pruner, Scan};
use jf_disk::Disk;
use jf_engine::Which;
use jf_model::Entry;
use std::sync::Wait;

// Raises the gate to a bound, loads every pin word, and raises the cut to the least that was found. The place is any one
// of the board, and is unchanged.
fn sweep(pruner: &mut Pruner, board: &Board, own: &mut Place, bound: u64) -> Scan
    requires pruner { pruner.old.board ≡ board.now }
    requires own { own.old.board ≡ board.now }
    requires up { pruner.old.known.gate ≤ bound }
    ensures swept { HasSwept own.old.known pruner.old pruner.new bound result.low result.held }
    ensures own { own.new ≡ own.old }
{
    pruner.raise(board, bound);
    let scan = pruner.scan(board, own);
    pruner.cut(board);
    scan
}

impl<D: Disk> Vault<D> {
    // Why the versions below a bound can't be retired, if they can't.
    fn prune_fault(&self, bound: u64) -> Option<StoreFault>
        ensures { result ≡ first_of (prune_faults bound self.now.start self.now.events) }
    {
        if self.is_broken() {
            return Some(StoreFault::Broken);
        }
        if self.entries.len() as u64 >= MAX_ENTRIES {
            return Some(StoreFault::Last(Which::Entries));
        }
        let head = self.engine.state().head;
        if bound > head {
            return Some(StoreFault::Future(head));
        }
        let retired = self.pruner.gate();
        if bound < retired {
            return Some(StoreFault::Retired(retired));
        }
        None
    }

    // Retires the versions below a bound, for a pass with this place. Room in the ledger is made before the gate is
    // raised or the disk is touched. It is one entry more; if the disk failed, a mark; every other refusal leaves all as
    // it was.
    pub(crate) fn prune(
        &mut self,
        board: &Board,
        own: &mut Place,
        pass: u64,
        bound: u64,
    ) -> Result<Pruned, StoreFault>
        requires pass { pass < self.old.start.passes }
        requires board { board.now ≡ self.old.start.board }
        requires own { own.old.board ≡ board.now }
        requires words { board.now.words ≡ max_pins * self.old.start.passes + 3 }
        ensures own { own.new ≡ own.old }
        ensures start { self.new.start ≡ self.old.start }
        ensures pruned { IfOk result (PrunesIn pass own.old.known bound self.old self.new) }
        ensures failed { IfErr result (FailsPruning pass own.old.known bound self.old self.new) }
    {
        if let Some(fault) = self.prune_fault(bound) {
            return Err(fault);
        }
        if self.entries.reserve(1).is_err() {
            return Err(StoreFault::Memory);
        }
        let scan = sweep(&mut self.pruner, board, own, bound);
        let floor = self.engine.state().floor.max(scan.low);
        match self.engine.prune(floor) {
            Ok(()) => {
                self.entries.push_reserved(Entry::Retired {
                    owner: pass,
                    bound,
                    floor,
                });
                Ok(Pruned {
                    bound,
                    floor,
                    held: scan.held,
                })
            }
            Err(_) => {
                self.tried = Some(Tried {
                    pass,
                    attempt: Attempt::Retires { bound, floor },
                });
                Err(StoreFault::DiskFault)
            }
        }
    }
}

impl Pins {
    // Retires the versions below a bound in a vault, for the pass with these pins.
    fn prune<D: Disk>(
        &mut self,
        vault: &mut Vault<D>,
        board: &Board,
        pass: u64,
        bound: u64,
    ) -> Result<Pruned, StoreFault>
        requires pass { pass < vault.old.start.passes }
        requires board { board.now ≡ vault.old.start.board }
        requires own { self.old.board ≡ board.now }
        requires words { board.now.words ≡ max_pins * vault.old.start.passes + 3 }
        ensures unchanged { self.new ≡ self.old }
        ensures pins { ArePins self.old }
        ensures start { vault.new.start ≡ vault.old.start }
        ensures pruned { IfOk result (PrunesIn pass self.old.known bound vault.old vault.new) }
        ensures failed { IfErr result (FailsPruning pass self.old.known bound vault.old vault.new) }
    {
        self.know();
        vault.prune(board, &mut self.place, pass, bound)
    }
}

impl<D: Disk> Pass<D> {
    /// Raises the retired bound, below which no version can be read or pinned any more, and the floor with it: to the
    /// least of the bound and of the pinned versions, if that is above the old floor. If the floor stays below the bound,
    /// the pin that kept it there is returned. It waits for its turn.
    ///
    /// Refusals; after each but `DiskFault` store and disk are as the events that the pass has then seen say:
    ///
    /// - `Broken`: an earlier call through this store met a fault of the disk.
    /// - `Last(Entries)`: the ledger has 2^62 entries.
    /// - `Future(head)`: the bound is above the head.
    /// - `Retired(bound)`: the bound is below the retired bound.
    /// - `Memory`: memory ran out.
    /// - `DiskFault`: a call on the disk failed. The last event is then the mark of this call, and each further call
    ///   through this store is refused. After a crash the files represent the versions from the old or the new floor on.
    pub fn prune<H: Wait>(
        &mut self,
        rt: &H,
        store: &Store<D>,
        bound: u64,
    ) -> Result<Pruned, StoreFault>
        // The pass is one of this store's.
        requires { IsPassOf self.old store.now }
        // Bound and floor were raised, the floor no higher than any pin, and both are returned.
        ensures pruned { IfOk result (HasPruned store.now.start bound self.old self.new) }
        // The disk failed in it, and the mark was set; or it was refused over what the pass has seen, and did nothing.
        ensures failed { IfErr result (HasFailedPruning store.now.start bound self.old self.new) }
    {
        let mut vault = take_out(rt, &mut self.seat, &store.turn);
        let number = self.seat.number();
        let pruned = self.pins.prune(&mut vault, &store.board, number, bound);
        let newest = vault.newest(store.window.is_some());
        self.marked = give_back(&mut self.seat, &store.turn, vault);
        self.show(rt, store, newest);
        pruned
    }
}
