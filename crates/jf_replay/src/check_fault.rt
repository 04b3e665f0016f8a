// Why what was read isn't taken.
ghost use Rattle.std.specs.Prelude.{◌≡◌};
ghost use Rattle.jf_replay.specs.declared.check_fault.CheckFault.TheVariants as fault;

use jf_path::Memory;
use std::alloc::AllocFailed;

/// Why what was read isn't taken.
#[derive(Clone, Copy, Debug, PartialEq, Eq)]
pub(crate) enum CheckFault {
    /// No landing, or no checkpoint, writes this.
    Unsound,
    /// Out of memory.
    Memory,
}

impl From<Memory> for CheckFault {
    ghost from_gives = { λ _ e. e ≡ fault.Memory };

    fn from(_: Memory) -> Self {
        CheckFault::Memory
    }
}

impl<T: Drop> From<AllocFailed<T>> for CheckFault {
    ghost from_gives = { λ _ e. e ≡ fault.Memory };

    fn from(_: AllocFailed<T>) -> Self {
        CheckFault::Memory
    }
}
