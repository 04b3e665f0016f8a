// Reading stops at the first fault from left to right, and says which it is.
ghost use Rattle.std.specs.Prelude.{◌≡◌};
ghost use Rattle.jf_codec.specs.declared.fault.CodecFault.TheVariants as fault;

use jf_path::Memory;

/// Why bytes begin with no name or node: the first fault from left to right (docs/FORMATS.md, "Names and nodes in
/// bytes").
#[derive(Clone, Copy, Debug, PartialEq, Eq)]
pub enum CodecFault {
    /// The bytes end inside the field that is read.
    Short,
    /// The tag is above 3.
    Tag,
    /// The two bitmaps were read, and there is no child, a leaf bit without a child, or a single child that is a leaf.
    Bitmap,
    /// The length of a leaf's value was read, and is above 4,096.
    Length,
    /// The number of nibbles was read and is above 64, or the low half after an odd number of nibbles isn't zero.
    Path,
    /// A whole node was read, and bytes are left over where none may be.
    Rest,
    /// The count of a child was read, and is 0, or 1 for a child that is no leaf, or above 1 for a leaf.
    Count,
    /// Out of memory.
    Memory,
}

impl From<Memory> for CodecFault {
    ghost from_gives = { λ _ e. e ≡ fault.Memory };

    fn from(_: Memory) -> Self {
        CodecFault::Memory
    }
}
