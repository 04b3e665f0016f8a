// Why records lead to no directory.
ghost use Rattle.std.specs.Prelude.{◌≡◌};
ghost use Rattle.jf_replay.specs.Faults.{fault_of_decoding, fault_of_check};

use crate::check_fault::CheckFault;
use jf_path::Memory;
use jf_payload::RecordFault;

/// Why records lead to no directory.
#[derive(Clone, Copy, Debug, PartialEq, Eq)]
pub enum ReplayFault {
    /// The offset of the first record that isn't sound, in bytes from the file's start.
    Unsound { offset: u64 },
    /// Out of memory.
    Memory,
}

impl From<Memory> for ReplayFault {
    ghost use Rattle.jf_replay.specs.declared.fault.ReplayFault.TheVariants as fault;

    ghost from_gives = { λ _ e. e ≡ fault.Memory };

    fn from(_: Memory) -> Self {
        ReplayFault::Memory
    }
}

/// The fault of a record at an offset whose payload was not decoded.
pub(crate) fn undecoded_at(offset: u64, fault: RecordFault) -> ReplayFault
    ensures { result ≡ fault_of_decoding offset fault }
{
    match fault {
        RecordFault::Bad => ReplayFault::Unsound { offset },
        RecordFault::Memory => ReplayFault::Memory,
    }
}

/// The fault of a record at an offset that was checked.
pub(crate) fn refused_at(offset: u64, fault: CheckFault) -> ReplayFault
    ensures { result ≡ fault_of_check offset fault }
{
    match fault {
        CheckFault::Unsound => ReplayFault::Unsound { offset },
        CheckFault::Memory => ReplayFault::Memory,
    }
}
