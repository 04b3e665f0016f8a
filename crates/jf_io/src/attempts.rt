// System calls that a signal interrupts are tried again, up to a bound.

/// The most attempts of one read, write or flush. A signal that interrupts the last one is a fault.
pub(crate) const ATTEMPTS: u32 = 1_000;
