// Bytes are those of a path only if their number fits their count and the padding is zero.

/// Why bytes are the bytes of no path (docs/FORMATS.md, Names and nodes in bytes).
#[derive(Clone, Copy, Debug, PartialEq, Eq)]
pub enum PathFault {
    /// There is no byte, the count is above 64, or there are more or fewer bytes than it needs.
    Length,
    /// The number of bytes is right, the count is odd, and the last low half isn't zero.
    Padding,
}
