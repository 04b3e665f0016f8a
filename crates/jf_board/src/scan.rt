// What a scan returns.

/// The pin word that gave a scan's low.
#[derive(Clone, Copy, Debug, PartialEq, Eq)]
pub struct Held {
    /// The number of the place whose word it is.
    pub owner: u64,
    /// Which of its eight it is, 0 to 7.
    pub place: u64,
    /// The version that the word pins.
    pub version: u64,
}

/// What a scan of all pin words found.
#[derive(Clone, Copy, Debug, PartialEq, Eq)]
pub struct Scan {
    /// The least of the gate and the versions loaded.
    pub low: u64,
    /// The first word that gave the low, if that is below the gate.
    pub held: Option<Held>,
}
