// Refusals of a restore.
ghost use Rattle.std.specs.Prelude.{◌≡◌};
ghost use Rattle.jf_restore.specs.declared.refused.RestoreRefused.TheVariants as refused;

use jf_engine::EngineFault;
use jf_hash::Hash;
use jf_path::Memory;
use jf_range::RangeFault;

/// Why a chunk isn't added, why what was added isn't whole, or why it isn't imported.
#[derive(Clone, Copy, Debug, PartialEq, Eq)]
pub enum RestoreRefused {
    /// The chunk isn't accepted after the entries that were added before: the first check that fails.
    Chunk(RangeFault),
    /// The root of all entries isn't the announced one; this is the root that was found.
    NotWhole(Hash),
    /// The root of all entries is the announced one, and the store doesn't take them.
    Engine(EngineFault),
    /// Out of memory for the entries of a chunk that is accepted.
    Memory,
}

impl From<Memory> for RestoreRefused {
    ghost from_gives = { λ _ e. e ≡ refused.Memory };

    fn from(_: Memory) -> Self {
        RestoreRefused::Memory
    }
}
