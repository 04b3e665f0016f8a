// What trimming gave back.
use jf_disk::Side;

/// The side that was trimmed, which isn't live, and how many bytes shorter it is.
#[derive(Clone, Copy, Debug, PartialEq, Eq)]
pub struct Trimmed {
    /// The side that isn't live.
    pub side: Side,
    /// How many bytes it gave back: 0 if it had at most one byte, and otherwise all but one.
    pub bytes: u64,
}
