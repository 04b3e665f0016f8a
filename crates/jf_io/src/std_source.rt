// A source over one of std's readers. No contract says what bytes the reader gives.
ghost use Rattle.std.specs.Prelude.{◌≡◌, ℕ, ◌-◌, ◌<◌, ◌≤◌, ◌^◌, None, length, OnOk, IfOk};
ghost use Rattle.jf_path.specs.Faults.{HasCause};

use crate::attempts::ATTEMPTS;
use crate::failed::IoFailed;
use crate::source::Source;
use std::io::{self, ErrorKind, Read};
use std::marker::Model;

/// A source of the bytes that a reader gives. Its model is its counts of bytes and of faults.
#[derive(Drop)]
pub struct StdSource<B> {
    reader: B,
    given: u64,
    faults: u64,
}

impl<B> Model for StdSource<B> {
    ghost use Rattle.jf_io.specs.StdSource.{SourceCounts};

    ghost Value = { SourceCounts };

    ghost view = { λ s. record { given = s.given; faults = s.faults } };
}

impl<B: Read> StdSource<B> {
    /// A source of what `reader` gives from here on.
    pub fn new(reader: B) -> StdSource<B>
        // The count of bytes given and the count of faults are 0.
        ensures { result ≡ record { given = 0; faults = 0 } }
    {
        StdSource {
            reader,
            given: 0,
            faults: 0,
        }
    }

    // Counts a fault.
    fn fail(&mut self) -> IoFailed
        ensures given { self.new.given ≡ self.old.given }
        ensures counts { self.old.faults ≤ self.new.faults }
        ensures rises { HasCause self.old.faults self.new.faults }
    {
        self.faults = self.faults.saturating_add(1);
        IoFailed
    }
}

impl<B: Read> Source for StdSource<B> {
    ghost rest = { λ _. None };

    ghost given = { λ s. s.given };

    ghost faults = { λ s. s.faults };

    fn take(&mut self, buf: &mut [u8]) -> Result<usize, IoFailed> {
        let countable = (u64::MAX - self.given).min(buf.len() as u64) as usize;
        if countable == 0 {
            return Err(self.fail());
        }
        match read(&mut self.reader, &mut buf[..countable]) {
            Ok(count) => {
                self.given += count as u64;
                Ok(count)
            }
            Err(_) => Err(self.fail()),
        }
    }

    fn taken_count(&self) -> u64 {
        self.given
    }

    fn faults(&self) -> u64 {
        self.faults
    }
}

// Reads once, and tries again if a signal interrupts it, up to `ATTEMPTS` times in all.
fn read<B: Read>(reader: &mut B, buf: &mut [u8]) -> io::Result<usize>
    ensures { IfOk result (λ n. n ≤ length buf.old) }
{
    for _ in 1..ATTEMPTS {
        match reader.read(buf) {
            Err(e) if e.kind() == ErrorKind::Interrupted => {}
            result => return result,
        }
    }
    reader.read(buf)
}
