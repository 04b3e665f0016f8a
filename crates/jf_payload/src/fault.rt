// Why a payload is no record.
ghost use Rattle.std.specs.Prelude.{◌≡◌};
ghost use Rattle.jf_payload.specs.declared.fault.RecordFault.TheVariants as fault;

use jf_path::Memory;

/// Why a payload is no record.
#[derive(Clone, Copy, Debug, PartialEq, Eq)]
pub enum RecordFault {
    /// The payload isn't the spelling of a record of that kind in that format, or the format has no such kind.
    Bad,
    /// Out of memory.
    Memory,
}

impl From<Memory> for RecordFault {
    ghost from_gives = { λ _ e. e ≡ fault.Memory };

    fn from(_: Memory) -> Self {
        RecordFault::Memory
    }
}
