// What a cause is called, and the cause of each error of the system that has one of its own.
use jf_folder::FaultCause;
use std::io::ErrorKind;
use std::test::Fail;

const TEXTS: &[(FaultCause, &str)] = &[
    (FaultCause::InUse, "in use by another run"),
    (FaultCause::NoSuchFolder, "no such folder"),
    (FaultCause::NotAllowed, "not allowed"),
    (FaultCause::ReadOnly, "read-only"),
    (FaultCause::NoRoom, "no room left"),
    (FaultCause::TooLarge, "too large for this system"),
    (FaultCause::FileMissing, "one file is missing"),
    (FaultCause::ClosedStream, "a standard stream is closed"),
    (FaultCause::InputOutput, "input or output error"),
    (FaultCause::NotAStore, "not a store's file"),
];

#[test]
fn each_cause_has_its_words(_rt: HostRuntime) -> Result<(), Fail> {
    for (cause, want) in TEXTS {
        if cause.text() != *want {
            return Err(Fail::new(want));
        }
    }
    Ok(())
}

const KINDS: &[(ErrorKind, FaultCause)] = &[
    (ErrorKind::WouldBlock, FaultCause::InUse),
    (ErrorKind::NotFound, FaultCause::NoSuchFolder),
    (ErrorKind::NotADirectory, FaultCause::NoSuchFolder),
    (ErrorKind::PermissionDenied, FaultCause::NotAllowed),
    (ErrorKind::ReadOnlyFilesystem, FaultCause::ReadOnly),
    (ErrorKind::StorageFull, FaultCause::NoRoom),
    (ErrorKind::QuotaExceeded, FaultCause::NoRoom),
    (ErrorKind::FileTooLarge, FaultCause::TooLarge),
    (ErrorKind::IsADirectory, FaultCause::NotAStore),
    (ErrorKind::Uncategorized, FaultCause::InputOutput),
];

#[test]
fn errors_of_the_system_have_causes(_rt: HostRuntime) -> Result<(), Fail> {
    for (kind, want) in KINDS {
        if FaultCause::of_kind(*kind) != *want {
            return Err(Fail::new(want.text()));
        }
    }
    Ok(())
}
