// What two files represent, or where they are damaged first.
ghost use Rattle.std.specs.Prelude.{◌≡◌, ◌<◌, ℕ, length, true, None, Some, IfOk};
ghost use Rattle.jf_disk.specs.declared.side.Side.{Side};
ghost use Rattle.jf_disk.specs.Disk.{reads};
ghost use Rattle.jf_disk.specs.Memory.{history_of};
ghost use Rattle.jf_pair.specs.Files.{is_begun};
ghost use Rattle.jf_codec.specs.declared.format.Format.TheVariants as format;
ghost use Rattle.jf_standing.specs.Building.{new_standing};
ghost use Rattle.jf_check.specs.Stores.{IsStoreCheck};
ghost use Rattle.jf_check.specs.Found.{IsLiveCheck, IsSizedStore};

use crate::checkpoint::checkpoint_size;
use jf_dir::Directory;
use jf_disk::{MemDisk, Side};
use jf_files::standings_have_versions;
use jf_frame::Log;
use jf_join::Workers;
use jf_pair::{Pair, PairFault, live_side_is_the_pairs};
use jf_path::Memory;
use jf_replay::{ReplayFault, Replayed, replay};
use jf_standing::{formats_are_sound, new_is_sound};
use std::alloc::Global;
use std::thread::Threads;

/// What two files represent, or where they are damaged first (docs/FORMATS.md, "Damage").
#[derive(Clone, Copy, Debug, PartialEq, Eq)]
pub enum StoreCheck {
    /// The files represent no versions: the first place of damage, in bytes from the file's start.
    Damaged {
        side: Side,
        offset: u64,
    },
    /// The files represent versions: the live file, if one has records; the number of nodes that are kept; and the
    /// number of bytes of the file that a new checkpoint would make.
    Sound {
        live: Option<Side>,
        kept: u64,
        checkpoint: u64,
    },
}

// What the files of a disk represent, or where they are damaged first.
pub(crate) fn store_found<H: Threads + Sync>(
    rt: &H,
    alloc: Global,
    disk: &mut MemDisk,
    workers: Workers,
) -> Result<StoreCheck, Memory>
    ensures { IfOk result (IsStoreCheck (reads (history_of disk.old))) }
{
    formats_are_sound();
    standings_have_versions();
    live_side_is_the_pairs();
    new_is_sound();
    match Pair::open(alloc, disk) {
        Ok((_, live)) => match live {
            Some(log) => live_store(rt, alloc, log, workers),
            None => new_store(alloc),
        },
        Err(fault) => outer_damage(fault),
    }
}

// The damage that shows before the live records are judged. A disk in memory fails only if it has no room.
fn outer_damage(fault: PairFault) -> Result<StoreCheck, Memory>
    ensures { IfOk result (λ c. (side : Side) × (at : ℕ) × (fault ≡ PairFault.Damaged side at) × (c ≡ StoreCheck.Damaged side at)) }
{
    match fault {
        PairFault::Damaged { side, offset } => Ok(StoreCheck::Damaged { side, offset }),
        PairFault::DiskFault | PairFault::Memory => Err(Memory),
    }
}

// What the live records represent, as a log has read them, or the first one that isn't sound.
fn live_store<H: Threads + Sync>(
    rt: &H,
    alloc: Global,
    log: Log,
    workers: Workers,
) -> Result<StoreCheck, Memory>
    requires begun { is_begun log.records ≡ true }
    requires positive { 0 < length log.records }
    ensures { IfOk result (IsLiveCheck log.side log.records) }
{
    let side = log.side();
    match replay(rt, alloc, log, workers) {
        Ok(Replayed { directory, .. }) => sized_store(alloc, Some(side), &directory),
        Err(ReplayFault::Unsound { offset }) => Ok(StoreCheck::Damaged { side, offset }),
        Err(ReplayFault::Memory) => Err(Memory),
    }
}

// What files without a record represent: a new store.
fn new_store(alloc: Global) -> Result<StoreCheck, Memory>
    ensures { IfOk result (IsSizedStore None (new_standing format.Two)) }
{
    let directory = Directory::fresh_store(alloc)?;
    sized_store(alloc, None, &directory)
}

// The numbers of a directory, of which this side is live.
fn sized_store(
    alloc: Global,
    live: Option<Side>,
    directory: &Directory,
) -> Result<StoreCheck, Memory>
    ensures { IfOk result (IsSizedStore live directory.now) }
{
    directory.know();
    Ok(StoreCheck::Sound {
        live,
        kept: directory.count(),
        checkpoint: checkpoint_size(alloc, directory)?,
    })
}
