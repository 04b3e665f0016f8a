// A restore under way: the entries added so far, and their frontier.
ghost use Rattle.std.specs.Prelude.{◌≡◌, ◌+◌, ◌-◌, ◌*◌, ◌^◌, ◌<◌, ◌≤◌, [], length, IfErr, MatchResult};
ghost use Rattle.jf_hash.specs.Roots.{part_root};
ghost use Rattle.jf_restore.specs.Finishes.{IsFinished, IsNotFinished};
ghost use Rattle.jf_restore.specs.Restores.{IsAdded, IsNotAdded, IsWhole, IsNotWhole, IsUnhashed, HaveShortValues};

use crate::copies::add_copies;
use crate::importing::import;
use crate::refused::RestoreRefused;
use jf_disk::Disk;
use jf_engine::Engine;
use jf_hash::Hash;
use jf_join::{Gate, Workers};
use jf_path::Pairs;
use jf_range::{Frontier, RangeProof};
use jf_steps::Steps;
use std::alloc::Global;
use std::marker::{Brand, Model};
use std::sync::ledger::{Blank, Ledger};
use std::thread::Threads;

/// The entries of the chunks that were accepted so far, in their order, for a version whose root was announced. The
/// left frontier of the entries is kept beside them, so that no entry is hashed again.
#[derive(Drop)]
pub struct Restore {
    alloc: Global,
    version: u64,
    root: Hash,
    entries: Pairs,
    frontier: Frontier,
}

impl Model for Restore {
    ghost use Rattle.std.specs.Prelude.{◌≡◌, ◌-◌, ◌^◌, ◌<◌};
    ghost use Rattle.jf_range.specs.Frontiers.{frontier_of, IsAscending};
    ghost use Rattle.jf_restore.specs.RestoreValue.{RestoreValue};
    ghost use Rattle.jf_restore.specs.Restores.{HaveShortValues};

    ghost Value = { RestoreValue };

    ghost view = { λ r. record { version = r.version; root = r.root; entries = r.entries } };

    ghost invariant = { λ r. (r.frontier ≡ frontier_of r.entries) × IsAscending r.entries × HaveShortValues r.entries × (r.version < 2 ^ 64 - 1) };
}

impl Restore {
    /// A restore, without any entry yet, of a version below u64::MAX with an announced root.
    pub fn new(alloc: Global, version: u64, root: Hash) -> Restore
        // The version is one that a store may have.
        requires { version < 2 ^ 64 - 1 }
        // Nothing was added yet.
        ensures { result ≡ record { version = version; root = root; entries = [] } }
    {
        Restore {
            alloc,
            version,
            root,
            entries: Pairs::new(alloc),
            frontier: Frontier::new(),
        }
    }

    /// Adds the entries of a chunk, whose values have at most 4,096 bytes each, if it is accepted after those that were
    /// added before. After a refusal the restore is unchanged.
    pub fn add(&mut self, fresh: &Pairs, proof: &RangeProof) -> Result<(), RestoreRefused>
        // Each value has at most 4,096 bytes; `are_short` is the test.
        requires { HaveShortValues fresh.now }
        // The entries come after those added before; or the first failing check is returned, and the restore is unchanged.
        ensures { MatchResult result (λ _. IsAdded self.old self.new fresh.now proof.now) (λ why. IsNotAdded self.old self.new fresh.now proof.now why) }
    {
        self.add_uncounted::<Brand>(fresh, proof, Blank::new(1))
    }

    /// Does what `add` does, and counts. A step is one hash computed: there are at most 257 for each new entry and 257
    /// more, however many entries were added before, and no step if one of the first four checks fails.
    pub fn add_counted<L: Ledger>(
        &mut self,
        fresh: &Pairs,
        proof: &RangeProof,
        steps: &mut Steps<L>,
    ) -> Result<(), RestoreRefused>
        // Each value has at most 4,096 bytes; `are_short` is the test.
        requires { HaveShortValues fresh.now }
        // The entries come after those added before; or the first failing check is returned, and the restore is unchanged.
        ensures added { MatchResult result (λ _. IsAdded self.old self.new fresh.now proof.now) (λ why. IsNotAdded self.old self.new fresh.now proof.now why) }
        // At most 257 hashes are computed for each new entry, and 257 more.
        ensures cost { steps.new ≤ steps.old + 257 * (length fresh.now + 1) }
        // A chunk that fails one of the first four checks is never hashed.
        ensures idle { IfErr result (λ why. IsUnhashed why → steps.new ≡ steps.old) }
    {
        match self.frontier.accept(&self.root, fresh, proof, steps) {
            Err(why) => Err(RestoreRefused::Chunk(why)),
            Ok(frontier) => {
                add_copies(self.alloc, &mut self.entries, fresh.as_slice())?;
                self.frontier = frontier;
                Ok(())
            }
        }
    }

    // Adds a chunk in a ledger of its own.
    fn add_uncounted<L: Ledger>(
        &mut self,
        fresh: &Pairs,
        proof: &RangeProof,
        blank: Blank,
    ) -> Result<(), RestoreRefused>
        requires short { HaveShortValues fresh.now }
        requires name { blank.name ≡ L.name }
        requires parts { blank.parts ≡ L.parts }
        requires positive { 0 < blank.parts }
        ensures { MatchResult result (λ _. IsAdded self.old self.new fresh.now proof.now) (λ why. IsNotAdded self.old self.new fresh.now proof.now why) }
    {
        let mut steps = Steps::<L>::new(blank);
        self.add_counted(fresh, proof, &mut steps)
    }

    /// Returns how many entries were added, if their root is the announced one; otherwise refuses with the root that
    /// was found.
    pub fn whole(&self) -> Result<u64, RestoreRefused>
        // It accepts exactly if the entries have the announced root; otherwise it tells the root that they have.
        ensures { MatchResult result (IsWhole self.now) (IsNotWhole self.now) }
    {
        self.whole_uncounted::<Brand>(Blank::new(1))
    }

    /// Does what `whole` does, and counts. A step is one hash computed: there are at most 257, however many entries
    /// were added.
    pub fn whole_counted<L: Ledger>(&self, steps: &mut Steps<L>) -> Result<u64, RestoreRefused>
        // It accepts exactly if the entries have the announced root; otherwise it tells the root that they have.
        ensures complete { MatchResult result (IsWhole self.now) (IsNotWhole self.now) }
        // At most 257 hashes are computed, however many entries there are.
        ensures cost { steps.new ≤ steps.old + 257 }
    {
        let found = self.frontier.root(steps);
        if found != self.root {
            return Err(RestoreRefused::NotWhole(found));
        }
        Ok(self.entries.len())
    }

    // Compares the roots in a ledger of its own.
    fn whole_uncounted<L: Ledger>(&self, blank: Blank) -> Result<u64, RestoreRefused>
        requires name { blank.name ≡ L.name }
        requires parts { blank.parts ≡ L.parts }
        requires positive { 0 < blank.parts }
        ensures { MatchResult result (IsWhole self.now) (IsNotWhole self.now) }
    {
        let mut steps = Steps::<L>::new(blank);
        self.whole_counted(&mut steps)
    }

    /// How many entries were added so far.
    pub fn count(&self) -> u64
        // The number of entries added so far.
        ensures { result ≡ length self.now.entries }
    {
        self.entries.len()
    }

    /// Makes a new store hold the version with the entries that were added, if their root is the announced one, and returns
    /// how many they are. It is imported as `Engine::import` says, in the next generation of the files. Its nodes are made
    /// by at most this many workers, and the gate is told of the pieces of this work.
    ///
    /// Refusals; after each but that of the disk the store is unchanged:
    ///
    /// - `NotWhole(found)`: the root of the entries is another one.
    /// - `Engine(why)`: the store didn't import them. After `Engine(DiskFault)` it is broken, and a crash leaves the
    ///   versions from before or the one restored.
    pub fn finish<D: Disk, H: Threads + Sync, G: Gate>(
        self,
        rt: &H,
        alloc: Global,
        engine: &mut Engine<D>,
        workers: Workers,
        gate: &G,
    ) -> Result<u64, RestoreRefused>
        // The store holds exactly that version, or the reason that is returned holds; a crash leaves the one or the other.
        ensures { MatchResult result (IsFinished self engine.old engine.new) (IsNotFinished self engine.old engine.new) }
    {
        let count = self.whole()?;
        match import(
            rt,
            alloc,
            engine,
            self.version,
            &self.entries,
            workers,
            gate,
        ) {
            Ok(()) => Ok(count),
            Err(why) => Err(RestoreRefused::Engine(why)),
        }
    }
}
