// A landing of the version after the head is made, if it has the announced root.
ghost use Rattle.std.specs.Prelude.{◌≡◌, ◌+◌, false};
ghost use Rattle.jf_follow.specs.Following.{announced_landing};
ghost use Rattle.jf_follow.specs.Takes.{TakesBlock};

use crate::fault::FollowFault;
use crate::taken::Taken;
use jf_disk::Disk;
use jf_engine::{Engine, EngineFault, LandFault};
use jf_hash::Hash;
use jf_join::{Gate, Workers};
use jf_split::Batch;
use std::alloc::Global;
use std::thread::Threads;

/// Lands the batch of a landing of the version after the head, if it has the announced root.
pub(crate) fn land<D: Disk, H: Threads + Sync, G: Gate>(
    rt: &H,
    alloc: Global,
    engine: &mut Engine<D>,
    version: u64,
    root: &Hash,
    batch: &Batch,
    workers: Workers,
    gate: &G,
) -> Result<Taken, FollowFault>
    requires whole { engine.old.broken ≡ false }
    requires next { version ≡ engine.old.versions.head + 1 }
    ensures { TakesBlock (announced_landing version root.now batch.now) engine.old engine.new result }
{
    engine.know();
    match engine.land_rooted(rt, alloc, batch, root, workers, gate) {
        Ok(landed) => Ok(Taken::Landed(landed)),
        Err(LandFault::Differs(found)) => Err(FollowFault::Differs {
            version,
            announced: *root,
            found,
        }),
        Err(LandFault::Refused(EngineFault::Last(_))) => Err(FollowFault::Last),
        Err(LandFault::Refused(EngineFault::DiskFault)) => Err(FollowFault::DiskFault),
        Err(LandFault::Refused(EngineFault::Memory)) => Err(FollowFault::Memory),
        Err(LandFault::Refused(EngineFault::Broken)) => unreachable!(),
        Err(LandFault::Refused(EngineFault::NotEmpty(_))) => unreachable!(),
    }
}
