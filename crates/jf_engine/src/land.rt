// Landings on a store: of one batch, or of several as one record.
ghost use Rattle.std.specs.Prelude.{◌≡◌, ◌≢◌, ◌≤◌, [], ◌∷◌, length, Some, None, IfSome, IfOk};
ghost use Rattle.jf_path.specs.Limits.{max_forks};
ghost use Rattle.jf_hash.specs.Roots.{root};
ghost use Rattle.jf_model.specs.Versions.{newest};
ghost use Rattle.jf_model.specs.Batches.{key_count};
ghost use Rattle.jf_split.specs.Limits.{max_keys};
ghost use Rattle.jf_files.specs.Steps.{Lands};
ghost use Rattle.jf_standing.specs.Standing.{versions_of};
ghost use Rattle.jf_engine.specs.Announced.{HasEndedRooted};
ghost use Rattle.jf_engine.specs.EngineSteps.{HasEnded};

use crate::engine::{Engine, LAST, MOST_KEYS};
use crate::fault::{EngineFault, LandFault, Which};
use crate::frame::encode_landings;
use crate::landed::Landed;
use crate::landing::{land_batches, take_back};
use jf_dir::Directory;
use jf_disk::{Disk, know_dated};
use jf_files::{landings_follow, standings_have_versions, stops_by_records, succeeds_by_records};
use jf_frame::DiskFault;
use jf_hash::Hash;
use jf_join::{Gate, Workers};
use jf_payload::{kept_is_spelled, written_in_both};
use jf_split::{Batch, BatchList};
use jf_standing::{formats_are_sound, formats_group, groups_land};
use std::alloc::Global;
use std::slice::from_ref;
use std::thread::Threads;

impl<D: Disk> Engine<D> {
    /// Lands a batch on the head as the next version. All memory is taken first. Then come four calls on the disk: write
    /// and sync of the record, write and sync of its gate. At most `workers` threads work; neither their number nor the
    /// gate has an effect on the result. It refuses as `land_all` does.
    pub fn land<H: Threads + Sync, G: Gate>(
        &mut self,
        rt: &H,
        alloc: Global,
        batch: &Batch,
        workers: Workers,
        gate: &G,
    ) -> Result<Landed, EngineFault>
        // The batch is the next version, or the refusal's reason holds; a crash leaves the versions before or after.
        ensures step { HasEnded (Lands (batch.now ∷ [])) self.old self.new result }
        // What is returned is the new head, its root, and the moment at which it was safe.
        ensures answer { IfOk result (λ l. (l.version ≡ self.new.versions.head) × (l.root ≡ root (newest self.new.versions)) × (l.moment ≡ self.new.moment)) }
    {
        let _ = batch.as_slice();
        match self.land_each(rt, alloc, from_ref(batch), None, workers, gate) {
            Ok(landed) => Ok(landed),
            Err(LandFault::Refused(why)) => Err(why),
            Err(LandFault::Differs(_)) => unreachable!(),
        }
    }

    /// Lands a batch as `land` does, if the new version has this root. The root is found in memory, before any call on the
    /// disk.
    ///
    /// Refusals:
    ///
    /// - `Refused`: as `land` is refused. A fault of the disk comes only if the new version has the root.
    /// - `Differs`: the new version would have this other root. Store and disk are unchanged.
    pub fn land_rooted<H: Threads + Sync, G: Gate>(
        &mut self,
        rt: &H,
        alloc: Global,
        batch: &Batch,
        root: &Hash,
        workers: Workers,
        gate: &G,
    ) -> Result<Landed, LandFault>
        // The batch is the next version if that has the root; otherwise nothing changed, or the refusal's reason holds.
        ensures step { HasEndedRooted (Some root.now) (batch.now ∷ []) self.old self.new result }
        // What is returned is the new head, the root that was asked for, and the moment at which it was safe.
        ensures answer { IfOk result (λ l. (l.version ≡ self.new.versions.head) × (l.root ≡ root.now) × (l.moment ≡ self.new.moment)) }
    {
        let _ = batch.as_slice();
        self.land_each(rt, alloc, from_ref(batch), Some(*root), workers, gate)
    }

    /// Lands batches on the head, one version for each, in their order. They are one record, so a crash leaves all of
    /// these versions or none. All memory is taken first. Then come four calls on the disk: write and sync of the
    /// record, write and sync of its gate. At most `workers` threads work; neither their number nor the gate has an
    /// effect on the result.
    ///
    /// Refusals; after each but `DiskFault` store and disk are unchanged:
    ///
    /// - `Broken`: an earlier call on this store met a fault of the disk.
    /// - `Last(Version)`: the last version would be greater than 2^64 - 2.
    /// - `Last(Keys)`: it would not, and the head's map has more than 2^62 entries.
    /// - `Memory`: memory ran out.
    /// - `DiskFault`: a call on the disk failed. The store is broken and shows the versions from before. After a crash
    ///   the files represent these, or these and all new ones.
    pub fn land_all<H: Threads + Sync, G: Gate>(
        &mut self,
        rt: &H,
        alloc: Global,
        batches: &BatchList,
        workers: Workers,
        gate: &G,
    ) -> Result<Landed, EngineFault>
        // There is a batch to land.
        requires positive { 1 ≤ length batches.now }
        // There are at most as many batches as there may be forks.
        requires forks { length batches.now ≤ max_forks }
        // Together they have at most as many keys as one batch may have.
        requires bounded { key_count batches.now ≤ max_keys }
        // Each batch is a version, or the refusal's reason holds; a crash leaves all of them or none.
        ensures step { HasEnded (Lands batches.now) self.old self.new result }
        // What is returned is the new head, its root, and the moment at which it was safe.
        ensures answer { IfOk result (λ l. (l.version ≡ self.new.versions.head) × (l.root ≡ root (newest self.new.versions)) × (l.moment ≡ self.new.moment)) }
    {
        match self.land_each(rt, alloc, batches.as_slice(), None, workers, gate) {
            Ok(landed) => Ok(landed),
            Err(LandFault::Refused(why)) => Err(why),
            Err(LandFault::Differs(_)) => unreachable!(),
        }
    }

    // Lands batches on the head, one version for each, as one record. If a root is announced, it must be that of the last
    // version.
    fn land_each<H: Threads + Sync, G: Gate>(
        &mut self,
        rt: &H,
        alloc: Global,
        batches: &[Batch],
        announced: Option<Hash>,
        workers: Workers,
        gate: &G,
    ) -> Result<Landed, LandFault>
        requires positive { 1 ≤ length batches.now }
        requires forks { length batches.now ≤ max_forks }
        requires bounded { key_count batches.now ≤ max_keys }
        ensures step { HasEndedRooted announced batches.now self.old self.new result }
        ensures answer { IfOk result (λ l. (l.version ≡ self.new.versions.head) × (l.root ≡ root (newest self.new.versions)) × (l.moment ≡ self.new.moment)) }
    {
        if self.broken {
            return Err(LandFault::Refused(EngineFault::Broken));
        }
        self.directory.know();
        know_dated(&self.disk);
        formats_are_sound();
        formats_group();
        groups_land();
        kept_is_spelled();
        landings_follow();
        standings_have_versions();
        stops_by_records();
        succeeds_by_records();
        written_in_both();
        if LAST - self.directory.head() < batches.len() as u64 {
            return Err(LandFault::Refused(EngineFault::Last(Which::Version)));
        }
        if self.directory.newest().count() > MOST_KEYS {
            return Err(LandFault::Refused(EngineFault::Last(Which::Keys)));
        }
        let landings = land_batches(rt, alloc, &mut self.directory, batches, workers, gate)?;
        if let Some(found) = other_root(&self.directory, announced) {
            take_back(&mut self.directory, &landings);
            return Err(LandFault::Differs(found));
        }
        let Ok(()) = encode_landings(alloc, &mut self.frame, self.format, &landings) else {
            take_back(&mut self.directory, &landings);
            return Err(LandFault::Refused(EngineFault::Memory));
        };
        match self.pair.append(&mut self.disk, self.frame.as_slice()) {
            Ok(()) => {
                know_dated(&self.disk);
                Ok(Landed {
                    version: self.directory.head(),
                    root: self.directory.newest().root(),
                    moment: self.disk.moment(),
                })
            }
            Err(DiskFault) => {
                take_back(&mut self.directory, &landings);
                self.broken = true;
                Err(LandFault::Refused(EngineFault::DiskFault))
            }
        }
    }
}

// The root of the newest version, if another one is announced.
fn other_root(directory: &Directory, announced: Option<Hash>) -> Option<Hash>
    ensures other { IfSome result (λ found. (found ≡ root (newest (versions_of directory.now))) × (announced ≢ None) × (announced ≢ Some found)) }
    ensures none { result ≡ None → IfSome announced (λ a. a ≡ root (newest (versions_of directory.now))) }
{
    let announced = announced?;
    let found = directory.newest().root();
    if found == announced {
        return None;
    }
    Some(found)
}
