// What a thread uses a shared store by.
ghost use Rattle.std.specs.Prelude.{◌≡◌, ◌⊎◌, ℕ, ◌<◌, ◌≤◌, length, IfOk, IfErr, IfSome, OnOk, Some, None};
ghost use Rattle.jf_path.specs.Checks.{first_of};
ghost use Rattle.jf_model.specs.States.{IsState};
ghost use Rattle.jf_model.specs.declared.entries.Landing.TheVariants as landing;
ghost use Rattle.jf_store.specs.declared.tried.Attempt.TheVariants as attempt;
ghost use Rattle.jf_store.specs.Events.{entries_among};
ghost use Rattle.jf_store.specs.Ledgers.{state_after_events, AreEvents};
ghost use Rattle.jf_store.specs.Looks.{IsLook};
ghost use Rattle.jf_store.specs.News.{IsShownLook};
ghost use Rattle.jf_store.specs.Refusals.{IsRefusal, look_faults, commit_faults};
ghost use Rattle.jf_store.specs.Passes.{IsPassOf, Sees, HasLanded, HasFailed};

use crate::boxed_vault::{BoxedVault, give_back, take_out};
use crate::fault::StoreFault;
use crate::look::Look;
use crate::news::{News, ShownLook, glance, show};
use crate::pins::Pins;
use crate::store::Store;
use jf_disk::Disk;
use jf_engine::Landed;
use jf_join::{Gate, Workers};
use jf_split::Batch;
use jf_turn::Seat;
use std::alloc::Global;
use std::marker::Model;
use std::sync::Wait;
use std::thread::Threads;

/// A pass of a shared store. It knows the events that it has seen, and holds up to eight pins.
#[derive(Drop)]
pub struct Pass<D: Disk> {
    pub(crate) seat: Seat<BoxedVault<D>>,
    pub(crate) pins: Pins,
    // Whether a mark is among what it has seen.
    pub(crate) marked: bool,
}

impl<D: Disk> Model for Pass<D> {
    ghost use Rattle.std.specs.Coded.{codes};
    ghost use Rattle.jf_hash.specs.Codes.{map_code};
    ghost use Rattle.jf_store.specs.Passes.{Pass, pass_of, IsPass, IsCounted};

    ghost Value = { Pass };

    ghost coded = { Prim.hlevel (codes, map_code) };

    ghost view = { λ p. pass_of p.seat p.pins };

    ghost invariant = { λ p. IsPass p.seat p.pins × IsCounted p.marked p.seat.seen };
}

impl<D: Disk> Pass<D> {
    /// Its number: the passes of a store are numbered from 0 on, in the order of the list that `Store::new` returns.
    pub fn number(&self) -> u64
        // The pass's number.
        ensures { result ≡ self.now.number }
    {
        self.seat.number()
    }

    /// How many entries of the ledger it has seen.
    pub fn seen_count(&self) -> u64
        // The number of entries that it has seen.
        ensures { result ≡ length (entries_among self.now.seen) }
    {
        if self.marked {
            return self.seat.seen_count() - 1;
        }
        self.seat.seen_count()
    }

    /// What holds of every pass of a store, for proofs: the events that it has seen are a legal history of the store, and
    /// its number is below the number of passes.
    pub fn know(&self, store: &Store<D>)
        // The pass is one of this store's.
        requires { IsPassOf self.now store.now }
        // What it has seen is a legal history of the store.
        ensures events { AreEvents store.now.start self.now.seen }
        // Its number is below the number of passes.
        ensures number { self.now.number < store.now.start.passes }
        // The store began in a sound state.
        ensures start { IsState store.now.start.state }
    {
        let _ = &self.seat;
        let _ = &store.turn;
    }

    /// Looks at the head, and at the numbers of the store. It waits for its turn, and so perhaps for a landing, only if
    /// no look is shown to all passes, or an older one than this pass has seen.
    ///
    /// Refusals; the pass has then seen the events by which it was refused:
    ///
    /// - `Broken`: an earlier call through this store met a fault of the disk.
    /// - `Memory`: memory ran out.
    pub fn look<H: Wait>(&mut self, rt: &H, store: &Store<D>) -> Result<Look, StoreFault>
        // The pass is one of this store's.
        requires { IsPassOf self.old store.now }
        // The pass has seen what others did meanwhile, and did nothing itself.
        ensures sees { Sees self.old self.new }
        // The result is the state after all that the pass has then seen.
        ensures look { IfOk result (IsLook (state_after_events store.now.start self.new.seen)) }
        // Nothing refused it.
        ensures granted { OnOk result (first_of (look_faults store.now.start self.new.seen) ≡ None) }
        // It was refused for the first reason that holds over what the pass has seen.
        ensures refused { IfErr result (IsRefusal (look_faults store.now.start self.new.seen)) }
    {
        if let Some(shown) = glance(rt, store, self.seat.seen_count()) {
            return Ok(self.learn(store, shown));
        }
        self.look_in_turn(rt, store)
    }

    // Learns a look that is shown. The pass has seen no more than the events over which it was taken.
    fn learn(&mut self, store: &Store<D>, shown: ShownLook<D>) -> Look
        requires own { IsPassOf self.old store.now }
        requires shown { IsShownLook store.now shown.note shown.look }
        requires least { length self.old.seen ≤ length shown.note.seen }
        ensures sees { Sees self.old self.new }
        ensures look { IsLook (state_after_events store.now.start self.new.seen) result }
        ensures granted { first_of (look_faults store.now.start self.new.seen) ≡ None }
    {
        let ShownLook { note, look } = shown;
        self.seat.learn(&store.turn, note);
        self.marked = false;
        look
    }

    // Shows a look over the events that the pass has seen. With none, nothing older is shown from now on.
    pub(crate) fn show<H: Wait>(&mut self, rt: &H, store: &Store<D>, newest: Option<Look>)
        requires own { IsPassOf self.old store.now }
        requires look { IfSome newest (λ l. IsLook (state_after_events store.now.start self.old.seen) l × (first_of (look_faults store.now.start self.old.seen) ≡ None)) }
        ensures { self.new ≡ self.old }
    {
        let seen = self.seat.seen_count();
        let Some(look) = newest else {
            show(rt, store, News { seen, shown: None });
            return;
        };
        let note = self.seat.note(&store.turn);
        let shown = Some(ShownLook { note, look });
        show(rt, store, News { seen, shown });
    }

    // A look in the turn, which is then shown.
    fn look_in_turn<H: Wait>(&mut self, rt: &H, store: &Store<D>) -> Result<Look, StoreFault>
        requires { IsPassOf self.old store.now }
        ensures sees { Sees self.old self.new }
        ensures look { IfOk result (IsLook (state_after_events store.now.start self.new.seen)) }
        ensures granted { OnOk result (first_of (look_faults store.now.start self.new.seen) ≡ None) }
        ensures refused { IfErr result (IsRefusal (look_faults store.now.start self.new.seen)) }
    {
        let vault = take_out(rt, &mut self.seat, &store.turn);
        let look = vault.look();
        let newest = vault.newest(store.window.is_some());
        self.marked = give_back(&mut self.seat, &store.turn, vault);
        self.show(rt, store, newest);
        look
    }

    /// Lands a batch on the head as the next version, after which no fork is live. It waits for its turn. At most
    /// `workers` threads work; neither their number nor the gate has an effect on the result.
    ///
    /// Refusals; after each but `DiskFault` store and disk are as the events that the pass has then seen say:
    ///
    /// - `Broken`: an earlier call through this store met a fault of the disk.
    /// - `Last(Entries)`: the ledger has 2^62 entries.
    /// - `Last(Version)`: the head is version 2^64 - 2.
    /// - `Last(Keys)`: the head's map has more than 2^62 entries.
    /// - `Memory`: memory ran out.
    /// - `DiskFault`: a call on the disk failed. The last event is then the mark of this call, and each further call
    ///   through this store is refused. After a crash the files represent the versions from before or with this landing.
    pub fn commit<H: Threads + Wait + Sync, G: Gate>(
        &mut self,
        rt: &H,
        alloc: Global,
        store: &Store<D>,
        batch: &Batch,
        workers: Workers,
        gate: &G,
    ) -> Result<Landed, StoreFault>
        // The pass is one of this store's.
        requires { IsPassOf self.old store.now }
        // The batch is the next version, and its number and root are returned.
        ensures landed { IfOk result (HasLanded store.now.start (landing.Direct batch.now) self.old self.new) }
        // The disk failed in it, and the mark was set; or it was refused over what the pass has seen, and did nothing.
        ensures failed { IfErr result (HasFailed store.now.start (attempt.Lands (landing.Direct batch.now)) commit_faults self.old self.new) }
    {
        let mut vault = take_out(rt, &mut self.seat, &store.turn);
        let number = self.seat.number();
        let landed = vault.commit(rt, alloc, number, batch, workers, gate);
        let newest = vault.newest(store.window.is_some());
        self.marked = give_back(&mut self.seat, &store.turn, vault);
        self.show(rt, store, newest);
        landed
    }
}
