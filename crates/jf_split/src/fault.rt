// Why a batch takes no key.
ghost use Rattle.std.specs.Prelude.{◌≡◌};
ghost use Rattle.jf_split.specs.declared.fault.BatchFault.TheVariants as fault;

use jf_path::Memory;
use std::alloc::AllocFailed;

/// Why a batch refuses a key. The batch is unchanged.
#[derive(Clone, Copy, Debug, PartialEq, Eq)]
pub enum BatchFault {
    /// The key is new, and 10,000 are there.
    Full,
    /// Out of memory.
    Memory,
}

impl From<Memory> for BatchFault {
    ghost from_gives = { λ _ e. e ≡ fault.Memory };

    fn from(_: Memory) -> Self {
        BatchFault::Memory
    }
}

impl<T: Drop> From<AllocFailed<T>> for BatchFault {
    ghost from_gives = { λ _ e. e ≡ fault.Memory };

    fn from(_: AllocFailed<T>) -> Self {
        BatchFault::Memory
    }
}
