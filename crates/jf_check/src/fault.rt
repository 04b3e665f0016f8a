// Why files weren't told of.
ghost use Rattle.std.specs.Prelude.{◌≡◌};
ghost use Rattle.jf_check.specs.declared.fault.Unchecked.TheVariants as unchecked;

use jf_disk::DiskFailed;
use jf_path::Memory;
use std::alloc::AllocError;

/// Why the lines on two files weren't written whole.
#[derive(Clone, Copy, Debug, PartialEq, Eq)]
pub enum Unchecked {
    /// A call on the disk failed. Nothing was written.
    DiskFault,
    /// The sink failed; it has a front of the lines.
    WriteFault,
    /// Out of memory. Nothing was written.
    Memory,
}

impl From<DiskFailed> for Unchecked {
    ghost from_gives = { λ _ e. e ≡ unchecked.DiskFault };

    fn from(_: DiskFailed) -> Self {
        Unchecked::DiskFault
    }
}

impl From<AllocError> for Unchecked {
    ghost from_gives = { λ _ e. e ≡ unchecked.Memory };

    fn from(_: AllocError) -> Self {
        Unchecked::Memory
    }
}

impl From<Memory> for Unchecked {
    ghost from_gives = { λ _ e. e ≡ unchecked.Memory };

    fn from(_: Memory) -> Self {
        Unchecked::Memory
    }
}
