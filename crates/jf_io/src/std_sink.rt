// A sink over one of std's writers. No contract says what text the writer holds.
ghost use Rattle.std.specs.Prelude.{◌≡◌, ◌-◌, ◌<◌, ◌≤◌, ◌^◌, length, None, IfOk};
ghost use Rattle.jf_path.specs.Faults.{HasCause};

use crate::attempts::ATTEMPTS;
use crate::failed::IoFailed;
use crate::sink::Sink;
use std::io::{self, ErrorKind, Write};
use std::marker::Model;

/// A sink whose bytes go to a writer. Its model is its count of faults.
#[derive(Drop)]
pub struct StdSink<W> {
    writer: W,
    faults: u64,
}

impl<W> Model for StdSink<W> {
    ghost use Rattle.std.specs.Prelude.{ℕ};

    ghost Value = { ℕ };

    ghost view = { λ s. s.faults };
}

impl<W: Write> StdSink<W> {
    /// A sink whose bytes go to `writer`. Each `put` flushes the writer, so that no byte waits in a buffer on return.
    pub fn new(writer: W) -> StdSink<W>
        // The count of faults is 0.
        ensures { result ≡ 0 }
    {
        StdSink { writer, faults: 0 }
    }

    // Counts a fault.
    fn fail(&mut self) -> IoFailed
        ensures counts { self.old ≤ self.new }
        ensures rises { HasCause self.old self.new }
    {
        self.faults = self.faults.saturating_add(1);
        IoFailed
    }
}

impl<W: Write> Sink for StdSink<W> {
    ghost text = { λ _. None };

    ghost faults = { λ s. s };

    fn put(&mut self, bytes: &[u8]) -> Result<usize, IoFailed> {
        match write_through(&mut self.writer, bytes) {
            Ok(count) if count > 0 => Ok(count),
            _ => Err(self.fail()),
        }
    }

    fn faults(&self) -> u64 {
        self.faults
    }
}

// Writes once, and flushes.
fn write_through<W: Write>(writer: &mut W, bytes: &[u8]) -> io::Result<usize>
    ensures { IfOk result (λ n. n ≤ length bytes.now) }
{
    let count = write(writer, bytes)?;
    flush(writer)?;
    Ok(count)
}

// Writes once, and tries again if a signal interrupts it, up to `ATTEMPTS` times in all.
fn write<W: Write>(writer: &mut W, bytes: &[u8]) -> io::Result<usize>
    ensures { IfOk result (λ n. n ≤ length bytes.now) }
{
    for _ in 1..ATTEMPTS {
        match writer.write(bytes) {
            Err(e) if e.kind() == ErrorKind::Interrupted => {}
            result => return result,
        }
    }
    writer.write(bytes)
}

// Flushes, and tries again if a signal interrupts it, up to `ATTEMPTS` times in all.
fn flush<W: Write>(writer: &mut W) -> io::Result<()> {
    for _ in 1..ATTEMPTS {
        match writer.flush() {
            Err(e) if e.kind() == ErrorKind::Interrupted => {}
            result => return result,
        }
    }
    writer.flush()
}
