// The two ways in which a pin is refused.

/// Why a version was not pinned. The place still holds what it held before.
#[derive(Clone, Copy, Debug, PartialEq, Eq)]
pub enum PinRefused {
    /// All eight places of the reader hold a version.
    Full,
    /// The version is retired. The number is the gate that the call loaded after it had announced the version; it is
    /// above the version.
    Retired(u64),
}
