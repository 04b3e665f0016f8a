// The import of one version into a new store.
ghost use Rattle.std.specs.Prelude.{◌+◌, ◌-◌, ◌≤◌, ◌^◌, OnOk, T};
ghost use Rattle.std.specs.FinMap as fin;
ghost use Rattle.jf_path.specs.Keys.{key_cmp};
ghost use Rattle.jf_disk.specs.Disk.{reads};
ghost use Rattle.jf_files.specs.Steps.{Imports};
ghost use Rattle.jf_update.specs.Restored.{AreShortEntries};
ghost use Rattle.jf_engine.specs.EngineSteps.{HasEnded};
ghost use Rattle.jf_engine.specs.Kept.{HoldImported};
ghost use Rattle.jf_engine.specs.Openings.{OnHistories};

use crate::checkpoint::checkpoint_frame;
use crate::engine::{Engine, LAST, MOST_KEYS};
use crate::fault::{EngineFault, Which};
use crate::imported::imported_directory;
use jf_codec::Format;
use jf_disk::{Disk, know_dated};
use jf_files::{
    checkpoints_are_numbered, checkpoints_follow, standings_have_versions, stops_by_records,
    succeeds_by_records,
};
use jf_frame::DiskFault;
use jf_join::{Gate, Workers};
use jf_path::Pairs;
use jf_standing::formats_are_sound;
use std::alloc::Global;
use std::thread::Threads;

impl<D: Disk> Engine<D> {
    /// Makes a new store hold one version, whose map has these entries. Base, floor and head become that version. All
    /// memory is taken before the first call on the disk. One checkpoint of the next generation is written, in format
    /// 2, to the side that isn't live, which is live from then on; all its nodes are named by that version. The nodes are
    /// made by at most this many workers, as those of a landing, and the gate is told of the pieces of this work.
    ///
    /// Refusals; after each but `DiskFault` store and disk are unchanged:
    ///
    /// - `Broken`: an earlier call on this store met a fault of the disk.
    /// - `NotEmpty(head)`: the head isn't version 0, or its map has an entry.
    /// - `Last(Generation)`: the store is new, and the generation is 2^64 - 2.
    /// - `Last(Keys)`: the store is new, its generation may grow, and more than 2^62 entries are given.
    /// - `Memory`: memory ran out.
    /// - `DiskFault`: a call on the disk failed. The store is broken and shows the versions from before. After a crash
    ///   the files represent these, or the version imported.
    pub fn import<H: Threads + Sync, G: Gate>(
        &mut self,
        rt: &H,
        alloc: Global,
        version: u64,
        entries: &Pairs,
        workers: Workers,
        gate: &G,
    ) -> Result<(), EngineFault>
        // The version is one that a store may have.
        requires bounded { version ≤ 2 ^ 64 - 2 }
        // The keys of the entries rise.
        requires sorted { T (fin.is_sorted key_cmp entries.now) }
        // Each value has at most 4,096 bytes.
        requires short { AreShortEntries entries.now }
        // The store holds that one version, or the refusal's reason holds; a crash leaves the one or the other.
        ensures step { HasEnded (Imports version entries.now) self.old self.new result }
        // After success the live side holds one checkpoint with these entries.
        ensures checkpoint { OnOk result (OnHistories self.old.history self.new.history (λ h g. HoldImported (reads g) (self.old.generation + 1) version entries.now)) }
    {
        if self.broken {
            return Err(EngineFault::Broken);
        }
        self.directory.know();
        let head = self.directory.head();
        if head != 0 || self.directory.newest().count() > 0 {
            return Err(EngineFault::NotEmpty(head));
        }
        if self.generation == LAST {
            return Err(EngineFault::Last(Which::Generation));
        }
        if entries.len() > MOST_KEYS {
            return Err(EngineFault::Last(Which::Keys));
        }
        know_dated(&self.disk);
        checkpoints_follow();
        checkpoints_are_numbered();
        formats_are_sound();
        standings_have_versions();
        stops_by_records();
        succeeds_by_records();
        let generation = self.generation + 1;
        let directory = imported_directory(rt, alloc, version, entries, workers, gate)?;
        directory.know();
        let frame = checkpoint_frame(alloc, &directory, generation)?;
        match self.pair.switch(&mut self.disk, frame.as_slice()) {
            Ok(()) => {
                know_dated(&self.disk);
                self.directory = directory;
                self.format = Format::Two;
                self.generation = generation;
                Ok(())
            }
            Err(DiskFault) => {
                self.broken = true;
                Err(EngineFault::DiskFault)
            }
        }
    }
}
