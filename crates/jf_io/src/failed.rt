// One error for every failure of a source or a sink: the cause isn't kept, the failure is counted.

/// A call of a source or a sink failed. The call raised the count of faults, unless it stood at `u64::MAX`.
#[derive(Clone, Copy, Debug, PartialEq, Eq)]
pub struct IoFailed;
