// A sink for a caller that wants no text.
ghost use Rattle.std.specs.Prelude.{None};

use crate::failed::IoFailed;
use crate::sink::Sink;

/// A sink that takes all bytes and keeps none. No call fails, and its text isn't known.
#[derive(Drop)]
pub struct Nowhere;

impl Sink for Nowhere {
    ghost text = { λ _. None };

    ghost faults = { λ _. 0 };

    fn put(&mut self, bytes: &[u8]) -> Result<usize, IoFailed> {
        Ok(bytes.len())
    }

    fn faults(&self) -> u64 {
        0
    }
}
