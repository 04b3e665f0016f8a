// What lies behind the turn.
ghost use Rattle.std.specs.Prelude.{◌≡◌, ◌⊎◌, ℕ, ◌+◌, ◌-◌, ◌<◌, ◌≤◌, ◌^◌, [], ◌∷◌, ◌++◌, length, Err, Ok, IfSome, IfOk, IfErr, OnOk, OnErr, true, false, Some, None};
ghost use Rattle.jf_path.specs.Limits.{max_pins};
ghost use Rattle.jf_path.specs.Checks.{first_of};
ghost use Rattle.jf_disk.specs.Disk.{History};
ghost use Rattle.jf_disk.specs.Moments.{ExtendsHistory};
ghost use Rattle.jf_model.specs.States.{IsState};
ghost use Rattle.jf_model.specs.declared.entries.Landing.TheVariants as landing;
ghost use Rattle.jf_model.specs.Entries.{after};
ghost use Rattle.jf_board.specs.Rule.{Has, Below, hold_at};
ghost use Rattle.jf_board.specs.Steps.{NumbersAreGiven};
ghost use Rattle.jf_board.specs.States.{new_pruner};
ghost use Rattle.jf_store.specs.Events.{is_marked, entries_among, attempt_of};
ghost use Rattle.jf_store.specs.Starts.{start_with, IsStartOf};
ghost use Rattle.jf_store.specs.Ledgers.{state_after_events, AreEvents};
ghost use Rattle.jf_store.specs.Kept.{IsKept};
ghost use Rattle.jf_store.specs.Floors.{AreMet};
ghost use Rattle.jf_store.specs.Looks.{IsLook};
ghost use Rattle.jf_store.specs.Refusals.{IsRefusal, look_faults, commit_faults};
ghost use Rattle.jf_store.specs.Vaults.{LandsIn, FailsIn};
ghost use Rattle.jf_store.specs.declared.tried.Attempt.TheVariants as attempt;

use crate::fault::StoreFault;
use crate::look::Look;
use crate::start::StartNote;
use crate::stepping::land;
use crate::tried::{Attempt, Tried};
use jf_board::{Board, Place, Pruner};
use jf_disk::Disk;
use jf_engine::{Engine, EngineFault, Landed, Which};
use jf_forks::ForkTable;
use jf_join::{Gate, Workers};
use jf_model::{BatchNote, Entry, Landing, Ledger};
use jf_split::Batch;
use std::alloc::Global;
use std::marker::Model;
use std::thread::Threads;

// The most entries of a ledger.
pub(crate) const MAX_ENTRIES: u64 = 1 << 62;

// The greatest version.
pub(crate) const LAST: u64 = u64::MAX - 1;

// The most entries that the head's map may have before a landing.
pub(crate) const MOST_KEYS: u64 = 1 << 62;

/// The engine, the forks, the board's pruner, how the store started, what was done and, once the disk has failed, what
/// was tried.
#[derive(Drop)]
pub struct Vault<D: Disk> {
    pub(crate) engine: Engine<D>,
    pub(crate) forks: ForkTable,
    pub(crate) pruner: Pruner,
    pub(crate) start_note: StartNote,
    pub(crate) entries: Vec<Entry>,
    pub(crate) tried: Option<Tried>,
}

impl<D: Disk> Model for Vault<D> {
    ghost use Rattle.std.specs.Coded.{codes};
    ghost use Rattle.jf_hash.specs.Codes.{map_code};
    ghost use Rattle.jf_store.specs.Vaults.{Vault, vault_of, IsVault};

    ghost Value = { Vault };

    ghost coded = { Prim.hlevel (codes, map_code) };

    ghost view = { λ v. vault_of v.start_note v.entries.items v.tried v.engine v.pruner };

    ghost invariant = { λ v. IsVault v.start_note v.entries.items v.tried v.engine v.forks v.pruner };
}

impl<D: Disk> Vault<D> {
    // Over an engine that isn't broken and the pruner of a new board, with nothing done.
    pub(crate) fn begin(
        alloc: Global,
        engine: Engine<D>,
        start_note: StartNote,
        pruner: Pruner,
    ) -> Vault<D>
        requires whole { engine.broken ≡ false }
        requires start_note { IsStartOf engine start_note }
        requires pruner { pruner.known ≡ new_pruner engine.versions.floor start_note.passes }
        ensures start { result.start ≡ start_with engine start_note.passes pruner.board }
        ensures events { result.events ≡ [] }
        ensures engine { result.engine ≡ engine }
        ensures sound { IsState result.start.state }
    {
        engine.know();
        Vault {
            engine,
            forks: ForkTable::new(alloc),
            pruner,
            start_note,
            entries: Vec::new(alloc),
            tried: None,
        }
    }

    // Hands back the engine, the pruner, and what was done.
    pub(crate) fn end(self) -> (Engine<D>, Pruner, Ledger)
        ensures engine { result.0 ≡ self.engine }
        ensures pruner { result.1 ≡ self.pruner }
        ensures entries { result.2 ≡ entries_among self.events }
        ensures events { AreEvents self.start self.events }
        ensures kept { IsKept self.start (entries_among self.events) (attempt_of self.events) self.engine }
        ensures met { AreMet (Has self.pruner.known.pairs) self.start.state self.events }
        ensures low { (state_after_events self.start self.events).floor ≤ self.pruner.known.cut }
        ensures low_tried { IfSome (attempt_of self.events) (λ e. (after e (state_after_events self.start self.events)).floor ≤ self.pruner.known.cut) }
        ensures count { self.pruner.known.count ≡ self.start.passes }
        ensures board { self.pruner.board ≡ self.start.board }
        ensures extended { (h : History) → self.start.history ≡ Some h → (g : History) × (self.engine.history ≡ Some g) × ExtendsHistory h g }
        ensures unknown { self.start.history ≡ None → self.engine.history ≡ None }
    {
        let Vault {
            engine,
            forks: _,
            pruner,
            start_note: _,
            entries,
            tried: _,
        } = self;
        (engine, pruner, Ledger::of(entries))
    }

    // Joins a place to the pruner, for good. The place announced each version that the pruner loaded at its number, and the cut
    // is at most each version that it has confirmed.
    pub(crate) fn join(&mut self, board: &Board, place: Place)
        requires place { place.board ≡ board.now }
        requires board { self.old.start.board ≡ board.now }
        ensures rest { self.new ≡ record self.old { pruner = self.new.pruner } }
        ensures pairs { self.new.pruner.known.pairs ≡ self.old.pruner.known.pairs }
        ensures count { self.new.pruner.known.count ≡ self.old.pruner.known.count }
        ensures cut { self.new.pruner.known.cut ≡ self.old.pruner.known.cut }
        ensures given { NumbersAreGiven self.old.pruner.known }
        ensures announced { (version : ℕ) → Has self.old.pruner.known.pairs (place.known.number, version) → Has place.known.announced version }
        ensures below { (i : ℕ) → i < max_pins → Below self.old.pruner.known.cut (hold_at place.known i) }
    {
        self.pruner.join(board, place);
    }

    // What holds of every vault: its events are a legal history, and at most 2^62.
    pub(crate) fn know(&self)
        ensures events { AreEvents self.now.start self.now.events }
        ensures bounded { length self.now.events ≤ 2 ^ 62 }
    {
        let _ = &self.engine;
    }

    // Whether the disk failed in a call.
    pub(crate) fn is_broken(&self) -> bool
        ensures { result ≡ is_marked self.now.events }
    {
        self.tried.is_some()
    }

    // The head and the numbers of the store.
    pub(crate) fn look(&self) -> Result<Look, StoreFault>
        ensures look { IfOk result (IsLook (state_after_events self.now.start self.now.events)) }
        ensures granted { OnOk result (first_of (look_faults self.now.start self.now.events) ≡ None) }
        ensures refused { IfErr result (IsRefusal (look_faults self.now.start self.now.events)) }
    {
        if self.is_broken() {
            return Err(StoreFault::Broken);
        }
        self.engine.know();
        let state = self.engine.state();
        let Some(snapshot) = self.engine.at(state.head) else {
            unreachable!()
        };
        let head = snapshot.share()?;
        Ok(Look {
            seen: self.entries.len() as u64,
            head,
            state,
            retired: self.pruner.gate(),
            forks: self.forks.live(),
        })
    }

    // A look for all passes to share, if one is wanted, the disk hasn't failed and there is memory for it.
    pub(crate) fn newest(&self, wanted: bool) -> Option<Look>
        ensures { IfSome result (λ l. IsLook (state_after_events self.now.start self.now.events) l × (first_of (look_faults self.now.start self.now.events) ≡ None)) }
    {
        if !wanted {
            return None;
        }
        match self.look() {
            Ok(look) => Some(look),
            Err(_) => None,
        }
    }

    // Why a batch can't be landed, if it can't.
    fn commit_fault(&self) -> Option<StoreFault>
        ensures { result ≡ first_of (commit_faults self.now.start self.now.events) }
    {
        if self.is_broken() {
            return Some(StoreFault::Broken);
        }
        if self.entries.len() as u64 >= MAX_ENTRIES {
            return Some(StoreFault::Last(Which::Entries));
        }
        self.engine.know();
        let head = self.engine.state().head;
        if head >= LAST {
            return Some(StoreFault::Last(Which::Version));
        }
        let Some(snapshot) = self.engine.at(head) else {
            unreachable!()
        };
        if snapshot.count() > MOST_KEYS {
            return Some(StoreFault::Last(Which::Keys));
        }
        None
    }

    // Lands a batch for a pass. All memory is taken before the disk is touched. A landing is one entry more, after which no
    // fork is live; one at which the disk failed is a mark; every other refusal leaves all as it was.
    pub(crate) fn commit<H: Threads + Sync, G: Gate>(
        &mut self,
        rt: &H,
        alloc: Global,
        pass: u64,
        batch: &Batch,
        workers: Workers,
        gate: &G,
    ) -> Result<Landed, StoreFault>
        requires { pass < self.old.start.passes }
        ensures start { self.new.start ≡ self.old.start }
        ensures landed { IfOk result (LandsIn pass (landing.Direct batch.now) self.old self.new) }
        ensures failed { IfErr result (FailsIn pass (attempt.Lands (landing.Direct batch.now)) commit_faults self.old self.new) }
    {
        if let Some(fault) = self.commit_fault() {
            return Err(fault);
        }
        if self.entries.reserve(1).is_err() {
            return Err(StoreFault::Memory);
        }
        match land(rt, alloc, &mut self.engine, batch, workers, gate) {
            Ok(landed) => {
                self.forks.settle(None);
                let root = landed.root;
                self.entries.push_reserved(Entry::Landed {
                    owner: pass,
                    version: landed.version,
                    how: Landing::Direct(BatchNote::of(batch)),
                    root,
                    moment: landed.moment,
                });
                Ok(landed)
            }
            Err(EngineFault::DiskFault) => {
                self.tried = Some(Tried {
                    pass,
                    attempt: Attempt::Lands(Landing::Direct(BatchNote::of(batch))),
                });
                Err(StoreFault::DiskFault)
            }
            Err(EngineFault::Memory) => Err(StoreFault::Memory),
            Err(_) => unreachable!(),
        }
    }
}
