// Replay: the first record gives a directory, and each later record is taken by it.
ghost use Rattle.std.specs.Prelude.{◌≡◌, ℕ, ◌<◌, length, true, Err, IfOk};
ghost use Rattle.jf_pair.specs.Files.{is_begun};
ghost use Rattle.jf_standing.specs.FormatLaws.{standing_in};
ghost use Rattle.jf_files.specs.Files.{LeadToStanding, IsUnsoundAt, generation_in};

use crate::fault::ReplayFault;
use crate::first::{Replayed, begin_with};
use crate::next::take_next;
use jf_frame::{FramedRecord, Log};
use jf_join::Workers;
use std::alloc::Global;
use std::thread::Threads;

/// The directory that the live records of two files lead to, with the format and generation of their checkpoint.
/// Refused with `Unsound` and the offset of the first record that isn't sound, or if memory runs out. At most `workers`
/// pieces of work run side by side. The log is taken, so that each record's bytes are let go once it is taken.
pub fn replay<H: Threads + Sync>(
    rt: &H,
    alloc: Global,
    log: Log,
    workers: Workers,
) -> Result<Replayed, ReplayFault>
    requires begun { is_begun log.records ≡ true }
    requires positive { 0 < length log.records }
    ensures led { IfOk result (λ r. LeadToStanding log.records r.format (standing_in r.format r.directory)) }
    ensures generation { IfOk result (λ r. r.generation ≡ generation_in log.records) }
    ensures unsound { (at : ℕ) → result ≡ Err (ReplayFault.Unsound at) → IsUnsoundAt log.records at }
{
    let records = log.into_records(alloc)?;
    replay_records(rt, alloc, records, workers)
}

/// What records lead to.
fn replay_records<H: Threads + Sync>(
    rt: &H,
    alloc: Global,
    records: Vec<FramedRecord>,
    workers: Workers,
) -> Result<Replayed, ReplayFault>
    requires begun { is_begun records.items ≡ true }
    requires positive { 0 < length records.items }
    ensures led { IfOk result (λ r. LeadToStanding records.items r.format (standing_in r.format r.directory)) }
    ensures generation { IfOk result (λ r. r.generation ≡ generation_in records.items) }
    ensures unsound { (at : ℕ) → result ≡ Err (ReplayFault.Unsound at) → IsUnsoundAt records.items at }
{
    let mut later = records.into_iter();
    let Some(first) = later.next() else {
        unreachable!()
    };
    let Replayed {
        mut directory,
        format,
        generation,
    } = begin_with(rt, alloc, first.lent(), workers)?;
    drop(first);
    for record in later {
        take_next(rt, alloc, &mut directory, record.lent(), format, workers)?;
    }
    Ok(Replayed {
        directory,
        format,
        generation,
    })
}
