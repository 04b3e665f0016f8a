// A store that follows another.
ghost use Rattle.std.specs.Prelude.{◌≡◌, ◌↔◌, Err, true};
ghost use Rattle.jf_follow.specs.Following.{announced_landing};
ghost use Rattle.jf_follow.specs.Takes.{TakesBlock};

use crate::fault::FollowFault;
use crate::judging::{Judgement, judge};
use crate::landing::land;
use crate::taken::Taken;
use jf_disk::Disk;
use jf_engine::Engine;
use jf_hash::Hash;
use jf_join::{Gate, Workers};
use jf_split::Batch;
use std::alloc::Global;
use std::marker::Model;
use std::thread::Threads;

/// A store that takes the landings that another one tells of, in the order of their versions.
#[derive(Drop)]
pub struct Follower<D: Disk> {
    engine: Engine<D>,
}

impl<D: Disk> Model for Follower<D> {
    ghost use Rattle.jf_engine.specs.Engines.{Engine, engine_code};

    ghost Value = { Engine };

    ghost coded = { engine_code };

    ghost view = { λ f. f.engine };
}

impl<D: Disk> Follower<D> {
    /// Follows from what a store has.
    pub fn new(engine: Engine<D>) -> Follower<D>
        // It shows what the store shows.
        ensures { result ≡ engine }
    {
        Follower { engine }
    }

    /// The store.
    pub fn engine(&self) -> &Engine<D>
        // The store that it follows with.
        ensures { result.now ≡ self.now }
    {
        &self.engine
    }

    /// Hands the store back.
    pub fn into_engine(self) -> Engine<D>
        // The store that it followed with.
        ensures { result ≡ self }
    {
        self.engine
    }

    /// Takes a landing: a version, the root of its map, and the batch that makes it of the version before. If the version
    /// is there with this root, nothing changes. The next version is landed, if its root is that of the head's map after the
    /// batch, which is found in memory before any call on the disk; the landing makes four. At most `workers` threads work;
    /// neither their number nor the gate has an effect on the result.
    ///
    /// Refusals, the first that holds. After each but `DiskFault` the store is equal to what it was, its disk too; so if the
    /// store was whole, every image of the disk still represents the versions from before:
    ///
    /// - `Broken`: an earlier call on the store met a fault of the disk.
    /// - `Below`: the version is below the first whose root is recorded.
    /// - `Differs`: another root is recorded for the version.
    /// - `Gap`: the version is above the next one.
    /// - `Last`: the head is version 2^64 - 2, or its map has more than 2^62 entries.
    /// - `Differs`: the batch results in another root.
    /// - `DiskFault`: a call on the disk failed. The store is broken and shows the versions from before. After a crash the
    ///   files represent these, or these and the new one.
    /// - `Memory`: memory ran out. It comes for the next version alone.
    #[tactic(auto, using(crate::proofs::Takings::refused_so, crate::proofs::Takings::broken_by))]
    pub fn take<H: Threads + Sync, G: Gate>(
        &mut self,
        rt: &H,
        alloc: Global,
        version: u64,
        root: &Hash,
        batch: &Batch,
        workers: Workers,
        gate: &G,
    ) -> Result<Taken, FollowFault>
        // The landing is there, or the refusal's reason holds; each refusal but `DiskFault` changes nothing.
        ensures taken { TakesBlock (announced_landing version root.now batch.now) self.old self.new result }
        // It returns `Broken` exactly if the store was broken.
        ensures broken { (result ≡ Err FollowFault.Broken) ↔ (self.old.broken ≡ true) }
    {
        if self.engine.is_broken() {
            return Err(FollowFault::Broken);
        }
        match judge(&self.engine, version, root, batch) {
            Judgement::Known => Ok(Taken::Already),
            Judgement::Refused(why) => Err(why),
            Judgement::Next => land(
                rt,
                alloc,
                &mut self.engine,
                version,
                root,
                batch,
                workers,
                gate,
            ),
        }
    }
}
