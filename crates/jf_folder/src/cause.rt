// Why a call on a folder or its files failed, as an operator has to know it.
ghost use Rattle.std.specs.Prelude.{◌≡◌};
ghost use Rattle.jf_folder.specs.Causes.{cause_text, kind_cause};

use std::io::ErrorKind;

/// Why a folder's files weren't opened, or a call on them failed (docs/FORMATS.md, "Causes of status 4").
#[derive(Clone, Copy, Debug, PartialEq, Eq)]
pub enum FaultCause {
    InUse,
    NoSuchFolder,
    NotAllowed,
    ReadOnly,
    NoRoom,
    TooLarge,
    FileMissing,
    ClosedStream,
    InputOutput,
    NotAStore,
}

impl FaultCause {
    /// The words for it on standard error, after `because: `.
    pub fn text(self) -> &'static str
        // The result is the text of the cause.
        ensures { result.now ≡ cause_text self }
    {
        match self {
            FaultCause::InUse => "in use by another run",
            FaultCause::NoSuchFolder => "no such folder",
            FaultCause::NotAllowed => "not allowed",
            FaultCause::ReadOnly => "read-only",
            FaultCause::NoRoom => "no room left",
            FaultCause::TooLarge => "too large for this system",
            FaultCause::FileMissing => "one file is missing",
            FaultCause::ClosedStream => "a standard stream is closed",
            FaultCause::InputOutput => "input or output error",
            FaultCause::NotAStore => "not a store's file",
        }
    }

    /// The cause that an error of the system results in.
    pub fn of_kind(kind: ErrorKind) -> FaultCause
        // The result is the cause that belongs to the kind.
        ensures { result ≡ kind_cause kind }
    {
        match kind {
            ErrorKind::WouldBlock => FaultCause::InUse,
            ErrorKind::NotFound | ErrorKind::NotADirectory => FaultCause::NoSuchFolder,
            ErrorKind::PermissionDenied => FaultCause::NotAllowed,
            ErrorKind::ReadOnlyFilesystem => FaultCause::ReadOnly,
            ErrorKind::StorageFull | ErrorKind::QuotaExceeded => FaultCause::NoRoom,
            ErrorKind::FileTooLarge => FaultCause::TooLarge,
            ErrorKind::IsADirectory => FaultCause::NotAStore,
            _ => FaultCause::InputOutput,
        }
    }
}
