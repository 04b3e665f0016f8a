// Why names aren't answered.
ghost use Rattle.std.specs.Prelude.{◌≡◌};
ghost use Rattle.jf_names.specs.declared.fault.NamesFault.TheVariants as fault;

use jf_path::Memory;

/// Why the block of what a version says of names isn't written whole.
#[derive(Clone, Copy, Debug, PartialEq, Eq)]
pub enum NamesFault {
    /// The version is below the floor, `least`, or above the head. Nothing was read or written.
    Outside { least: u64, head: u64 },
    /// The line with this number, counted from 1, is the first line that isn't a name, or is the 10,001st. Fewer than 65,536
    /// bytes after it were read. Nothing was written.
    Line(u64),
    /// The source failed. Nothing was written.
    ReadFault,
    /// The sink failed; it has a front of the block.
    WriteFault,
    /// Out of memory. Nothing was written.
    Memory,
}

impl From<Memory> for NamesFault {
    ghost from_gives = { λ _ e. e ≡ fault.Memory };

    fn from(_: Memory) -> Self {
        NamesFault::Memory
    }
}
