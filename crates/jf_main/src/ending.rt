// How the program ended.
ghost use Rattle.std.specs.Prelude.{◌≡◌, Some, None};
ghost use Rattle.std.specs.Process.{exit_status};
ghost use Rattle.jf_run.specs.Statuses.{code_of};
ghost use Rattle.jf_main.specs.Checks.{end_cause, end_status};
ghost use Rattle.jf_main.specs.Endings.{refusal_cause, refusal_status, disk_cause, unread_note};

use crate::note::CallNote;
use jf_folder::{AnyDisk, FaultCause, FileRefused};
use jf_run::status::Status;
use std::process::ExitCode;

/// How the program ended, why its disk failed, if it did, and what else there is to tell.
#[derive(Clone, Copy, Debug, PartialEq, Eq, Drop)]
pub struct Ending {
    pub status: Status,
    pub cause: Option<FaultCause>,
    pub note: Option<CallNote>,
}

impl Ending {
    /// An end without a fault of the disk, and without a note.
    pub(crate) fn of_status(status: Status) -> Ending
        ensures status { result.status ≡ status }
        ensures reason { result.cause ≡ None }
        ensures note { result.note ≡ None }
    {
        Ending {
            status,
            cause: None,
            note: None,
        }
    }

    /// An end by a fault of the disk, without a note.
    fn of_fault(cause: FaultCause) -> Ending
        ensures status { result.status ≡ Status.DiskFault }
        ensures reason { result.cause ≡ Some cause }
        ensures note { result.note ≡ None }
    {
        Ending {
            status: Status::DiskFault,
            cause: Some(cause),
            note: None,
        }
    }

    /// The end if a command line couldn't be made of the process's arguments.
    pub(crate) fn without_line(why: Status) -> Ending
        ensures status { result.status ≡ why }
        ensures reason { result.cause ≡ None }
        ensures note { result.note ≡ unread_note why }
    {
        match why {
            Status::Usage => Ending {
                status: why,
                cause: None,
                note: Some(CallNote::Example),
            },
            _ => Ending::of_status(why),
        }
    }

    /// The end if the disk couldn't be opened.
    pub(crate) fn of_refusal(why: FileRefused) -> Ending
        ensures status { result.status ≡ refusal_status why }
        ensures reason { result.cause ≡ refusal_cause why }
        ensures note { result.note ≡ None }
    {
        match why {
            FileRefused::DiskFailed(cause) => Ending::of_fault(cause),
            FileRefused::Memory => Ending::of_status(Status::Memory),
        }
    }

    /// The end after a call of the program that handed back this disk, with this note.
    pub(crate) fn of_call(status: Status, disk: &AnyDisk, note: Option<CallNote>) -> Ending
        ensures status { result.status ≡ status }
        ensures reason { result.cause ≡ disk_cause status disk.now }
        ensures note { result.note ≡ note }
    {
        match status {
            // A disk in memory knows no cause, and fails only if its room is used up.
            Status::DiskFault => Ending {
                status,
                cause: Some(disk.cause().unwrap_or(FaultCause::NoRoom)),
                note,
            },
            _ => Ending {
                status,
                cause: None,
                note,
            },
        }
    }

    /// The end after a check that ended so, of files over which, for this cause, no store would be opened.
    pub(crate) fn of_check(status: Status, refusal: Option<FaultCause>) -> Ending
        ensures status { result.status ≡ end_status status refusal }
        ensures reason { result.cause ≡ end_cause status refusal }
        ensures note { result.note ≡ None }
    {
        match (status, refusal) {
            (Status::Done | Status::Damaged { .. }, Some(cause)) => Ending::of_fault(cause),
            // The bytes are in memory, so a call on them fails only if it has no room.
            (Status::DiskFault, _) => Ending::of_status(Status::Memory),
            _ => Ending::of_status(status),
        }
    }

    /// The exit status that says how the program ended.
    pub fn exit_code(&self) -> ExitCode
        ensures { exit_status result ≡ code_of self.now.status }
    {
        ExitCode::from(self.status.code())
    }
}
