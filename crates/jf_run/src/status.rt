// How a call of the program ended, and the exit status that says so.
ghost use Rattle.std.specs.Prelude.{◌≡◌, [], None};
ghost use Rattle.std.specs.List.{list_any};
ghost use Rattle.jf_serve.specs.Served.{ran_out_of_memory};
ghost use Rattle.jf_run.specs.Statuses.{code_of, is_stopped_by_disk, status_of, status_of_check, status_of_ends, status_of_followed, status_of_history, status_of_input_fault, status_of_judged, status_of_led, status_of_names, status_of_received, status_of_refusal, status_of_served, status_of_verified};

use jf_ask::LookupFault;
use jf_check::{StoreCheck, Unchecked};
use jf_disk::Side;
use jf_engine::{EngineMemory, OpenFault};
use jf_follow::{FollowRefused, Followed};
use jf_hash::Hash;
use jf_history::End;
use jf_judge::Judged;
use jf_model::Ledger;
use jf_names::NamesFault;
use jf_receive::{Received, RestoreFault};
use jf_serve::{InputFault, ReportFault};
use jf_totals::HistoryFault;
use jf_verify::Verified;
use std::alloc::Global;

/// How a call of the program ended (docs/FORMATS.md, "Calling the program").
#[derive(Clone, Copy, Debug, PartialEq, Eq)]
pub enum Status {
    /// All output was written, and a mode that reads input read it to its end.
    Done,
    /// The program doesn't take these words. No device was touched.
    Usage,
    /// The source failed in this call.
    ReadFault,
    /// The sink failed in this call.
    WriteFault,
    /// The disk failed in this call.
    DiskFault,
    /// The files represent no versions, and are unchanged. This is the first place of damage, in bytes from the side's
    /// start.
    Damaged { side: Side, offset: u64 },
    /// The input of several sessions has more than 67,108,864 bytes or more than 16 sessions. No line was done.
    InputFull,
    /// Memory ran out.
    Memory,
    /// The store or the input was refused for this reason. If a version was to be restored, none was, and the files
    /// represent what they represented before. If names were to be looked up, it is `Line`: this line is the first that
    /// isn't a name, or is the 10,001st, and nothing was written.
    Refused(RestoreFault),
    /// The version isn't between these two, the least and the greatest that can be asked for. For the total of the roots they
    /// are the base and the head, for names the floor and the head. Nothing was read or written.
    Outside { least: u64, head: u64 },
    /// Landing blocks were not followed further, for this reason. The blocks before the line or the block that it names were
    /// followed, and nothing was written.
    Unfollowed(FollowRefused),
    /// The input shows nothing of the name under the root, for this reason, and the line that says so was written.
    NotShown(LookupFault),
    /// The store doesn't have the announced root of a version: the recorded root is another one, or the version isn't between
    /// the base and the head. These are the newest version and its root. Or there is no store, as neither file holds a record,
    /// and a new one doesn't have the root: these are version 0 and the root of the empty map. No line was done, nothing was read
    /// or written, and no byte of the files differs.
    Elsewhere { head: u64, root: Hash },
}

/// What a call of the program hands back: how it ended, the disk, the entries of its ledger, and the newest version
/// when the store was opened, or `None` if no store was opened, and what the store still has in memory.
#[derive(Drop)]
pub struct Ended<D> {
    pub status: Status,
    pub disk: D,
    pub entries: Ledger,
    pub start: Option<u64>,
    pub memory: Option<EngineMemory>,
}

impl Status {
    /// The status after a script's run. A disk that failed in an earlier call is `DiskFault` too; a store of one pass never
    /// ends so.
    pub fn of_end(end: End) -> Status
        // The status for this end.
        ensures { result ≡ status_of end }
    {
        match end {
            End::Done => Status::Done,
            End::ReadFault => Status::ReadFault,
            End::WriteFault => Status::WriteFault,
            End::DiskFault | End::Broken => Status::DiskFault,
            End::Memory => Status::Memory,
        }
    }

    /// The status after a script was led, and whether the sink failed. A fault of the sink ends no line, so another end
    /// goes before it.
    pub fn of_led(end: End, is_cut: bool) -> Status
        // The status for this end, and for a cut of the text if the run ended well.
        ensures { result ≡ status_of_led end is_cut }
    {
        match end {
            End::Done if is_cut => Status::WriteFault,
            _ => Status::of_end(end),
        }
    }

    /// The status after an input was judged.
    pub fn of_verified(end: Verified) -> Status
        // The status for this end.
        ensures { result ≡ status_of_verified end }
    {
        match end {
            Verified::Done => Status::Done,
            Verified::ReadFault => Status::ReadFault,
            Verified::WriteFault => Status::WriteFault,
            Verified::Memory => Status::Memory,
        }
    }

    /// The status after a name was looked up in a reply.
    pub fn of_judged(end: Judged) -> Status
        // The status for this end.
        ensures { result ≡ status_of_judged end }
    {
        match end {
            Judged::Shown => Status::Done,
            Judged::Refused(why) => Status::NotShown(why),
            Judged::ReadFault => Status::ReadFault,
            Judged::WriteFault => Status::WriteFault,
            Judged::Memory => Status::Memory,
        }
    }

    /// The status after what the files show was to be told.
    pub fn of_check(told: Result<StoreCheck, Unchecked>) -> Status
        // The status for this result.
        ensures { result ≡ status_of_check told }
    {
        match told {
            Ok(StoreCheck::Damaged { side, offset }) => Status::Damaged { side, offset },
            Ok(StoreCheck::Sound { .. }) => Status::Done,
            Err(Unchecked::DiskFault) => Status::DiskFault,
            Err(Unchecked::WriteFault) => Status::WriteFault,
            Err(Unchecked::Memory) => Status::Memory,
        }
    }

    /// The status if the store could not be opened.
    pub fn of_refusal(why: OpenFault) -> Status
        // The status for this refusal.
        ensures { result ≡ status_of_refusal why }
    {
        match why {
            OpenFault::DiskFault => Status::DiskFault,
            OpenFault::Damaged { side, offset } => Status::Damaged { side, offset },
            OpenFault::Memory => Status::Memory,
        }
    }

    /// The status after a version was to be restored.
    pub fn of_received(how: Received) -> Status
        // The status for this end.
        ensures { result ≡ status_of_received how }
    {
        match how {
            Received::Done => Status::Done,
            Received::ReadFault => Status::ReadFault,
            Received::WriteFault => Status::WriteFault,
            Received::DiskFault => Status::DiskFault,
            Received::Memory => Status::Memory,
            Received::Refused(why) => Status::Refused(why),
        }
    }

    /// The status after the total of the recorded roots was to be written.
    pub fn of_history(written: Result<(), HistoryFault>) -> Status
        // The status for this result.
        ensures { result ≡ status_of_history written }
    {
        match written {
            Ok(()) => Status::Done,
            Err(HistoryFault::Outside { least, head }) => Status::Outside { least, head },
            Err(HistoryFault::WriteFault) => Status::WriteFault,
            Err(HistoryFault::Memory) => Status::Memory,
        }
    }

    /// The status after the names of an input were to be looked up in a version.
    pub fn of_names(answered: Result<(), NamesFault>) -> Status
        // The status for this result.
        ensures { result ≡ status_of_names answered }
    {
        match answered {
            Ok(()) => Status::Done,
            Err(NamesFault::Outside { least, head }) => Status::Outside { least, head },
            Err(NamesFault::Line(line)) => Status::Refused(RestoreFault::Line(line)),
            Err(NamesFault::ReadFault) => Status::ReadFault,
            Err(NamesFault::WriteFault) => Status::WriteFault,
            Err(NamesFault::Memory) => Status::Memory,
        }
    }

    /// The status after landing blocks were to be followed.
    pub fn of_followed(how: Followed) -> Status
        // The status for this end.
        ensures { result ≡ status_of_followed how }
    {
        match how {
            Followed::Done => Status::Done,
            Followed::ReadFault => Status::ReadFault,
            Followed::WriteFault => Status::WriteFault,
            Followed::DiskFault => Status::DiskFault,
            Followed::Memory => Status::Memory,
            Followed::Refused(why) => Status::Unfollowed(why),
        }
    }

    /// The status if the scripts of several sessions could not be read.
    pub fn of_input_fault(why: InputFault) -> Status
        // The status for this fault.
        ensures { result ≡ status_of_input_fault why }
    {
        match why {
            InputFault::ReadFault => Status::ReadFault,
            InputFault::Full => Status::InputFull,
            InputFault::Memory => Status::Memory,
        }
    }

    /// The status after several sessions, by how they ended and by how the report on them was written.
    pub fn of_served(ends: &[End], report: Result<(), ReportFault>) -> Status
        // The status for these ends and this report.
        ensures { result ≡ status_of_served ends.now report }
    {
        match report {
            Ok(()) => Status::of_ends(ends, Status::Done),
            Err(ReportFault::WriteFault) => Status::of_ends(ends, Status::WriteFault),
            Err(ReportFault::Memory) => Status::Memory,
        }
    }

    // The status after sessions that ended so, or another one if none of them was stopped.
    fn of_ends(ends: &[End], other: Status) -> Status
        ensures { result ≡ status_of_ends ends.now other }
    {
        if are_out_of_memory(ends) {
            return Status::Memory;
        }
        if are_stopped_by_disk(ends) {
            return Status::DiskFault;
        }
        other
    }

    /// The exit status of the process: 0 to 12.
    pub fn code(self) -> u8
        // The number that the table has for this status.
        ensures { result ≡ code_of self }
    {
        match self {
            Status::Done => 0,
            Status::Usage => 1,
            Status::ReadFault => 2,
            Status::WriteFault => 3,
            Status::DiskFault => 4,
            Status::Damaged { .. } => 5,
            Status::InputFull => 6,
            Status::Memory => 7,
            Status::Refused(_) => 8,
            Status::Outside { .. } => 9,
            Status::Unfollowed(_) => 10,
            Status::NotShown(_) => 11,
            Status::Elsewhere { .. } => 12,
        }
    }
}

// Whether one of the sessions ran out of memory.
fn are_out_of_memory(ends: &[End]) -> bool
    ensures { result ≡ list_any ran_out_of_memory ends.now }
{
    ends.iter().any(|end| ran_out_of_memory(*end))
}

// Whether the disk stopped one of the sessions.
fn are_stopped_by_disk(ends: &[End]) -> bool
    ensures { result ≡ list_any is_stopped_by_disk ends.now }
{
    ends.iter().any(|end| is_stopped_by_disk(*end))
}

// Whether a session ran out of memory.
fn ran_out_of_memory(end: End) -> bool
    ensures { result ≡ ran_out_of_memory end }
{
    end == End::Memory
}

// Whether a session was stopped by the disk, which failed in it or in another one.
fn is_stopped_by_disk(end: End) -> bool
    ensures { result ≡ is_stopped_by_disk end }
{
    matches!(end, End::DiskFault | End::Broken)
}

impl<D> Ended<D> {
    // The end of a call that opened no store.
    pub(crate) fn without_store(alloc: Global, status: Status, disk: D) -> Ended<D>
        ensures status { result.status ≡ status }
        ensures disk { result.disk ≡ disk }
        ensures entries { result.entries ≡ [] }
        ensures start { result.start ≡ None }
    {
        Ended {
            status,
            disk,
            entries: Ledger::new(alloc),
            start: None,
            memory: None,
        }
    }
}
