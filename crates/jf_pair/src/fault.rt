// Why a pair of files can't be opened, with the place of damage if it is that.
ghost use Rattle.std.specs.Prelude.{◌≡◌};

use jf_disk::{DiskFailed, Side};
use jf_frame::DiskFault;

/// Why a pair of files can't be opened.
#[derive(Clone, Copy, Debug, PartialEq, Eq)]
pub enum PairFault {
    /// A call on the disk failed.
    DiskFault,
    /// The files are damaged, at this offset in bytes. Of several places it is the first in this order: on side A, then
    /// on side B, an open gate that isn't followed by a whole record and a next gate; then at offset 0 a first record
    /// of side A, then of side B, that is no checkpoint or has fewer than 8 bytes of payload; then, at offset 0 of side
    /// B, two sides of one generation.
    Damaged { side: Side, offset: u64 },
    /// Out of memory.
    Memory,
}

impl From<DiskFailed> for PairFault {
    ghost use Rattle.jf_pair.specs.declared.fault.PairFault.{PairFault};

    ghost from_gives = { λ _ result. result ≡ PairFault.DiskFault };

    fn from(_: DiskFailed) -> Self {
        PairFault::DiskFault
    }
}

impl From<DiskFault> for PairFault {
    ghost use Rattle.jf_pair.specs.declared.fault.PairFault.{PairFault};

    ghost from_gives = { λ _ result. result ≡ PairFault.DiskFault };

    fn from(_: DiskFault) -> Self {
        PairFault::DiskFault
    }
}
