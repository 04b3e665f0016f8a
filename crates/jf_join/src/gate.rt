// A gate is called before each piece of work begins; tests use it to hold work back.

/// A gate is notified of work before the work begins. Each call returns, though it may be slow, so that a caller can set
/// the order in which work begins. No result depends on what a gate does.
pub trait Gate: Sync {
    /// The work on this piece is about to begin. The pieces of an update are numbered from 0, at most sixteen of them; if a
    /// piece is cut again, so are the pieces that it is cut into. The pieces of its lists are numbered from 16.
    fn begin(&self, piece: u64);

    /// This session is about to begin. Sessions are numbered from 0.
    fn session(&self, number: u64);
}

/// A gate that returns at once.
#[derive(Clone, Copy, Debug)]
pub struct FreeGate;

impl Gate for FreeGate {
    fn begin(&self, _piece: u64) {}

    fn session(&self, _number: u64) {}
}
