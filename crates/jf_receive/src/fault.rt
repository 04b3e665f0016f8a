// Refusals of lines of chunk blocks.
ghost use Rattle.std.specs.Prelude.{◌≡◌};
ghost use Rattle.jf_receive.specs.declared.fault.BlockFault.TheVariants as fault;

use jf_path::Memory;
use jf_restore::RangeFault;

/// Why lines of chunk blocks are refused. Lines are numbered from 1, over all blocks: docs/FORMATS.md, "Chunk blocks".
#[derive(Clone, Copy, Debug, PartialEq, Eq)]
pub enum BlockFault {
    /// The line with this number doesn't match, or the lines end before it in the middle of a block.
    Line(u64),
    /// The block whose first line has this number isn't accepted after those before it.
    Chunk(u64, RangeFault),
    /// Out of memory, or the number of the next line doesn't fit in 64 bits.
    Memory,
}

impl From<Memory> for BlockFault {
    ghost from_gives = { λ _ e. e ≡ fault.Memory };

    fn from(_: Memory) -> Self {
        BlockFault::Memory
    }
}
