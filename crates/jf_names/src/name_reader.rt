// Names, read as the lines of an input.
ghost use Rattle.std.specs.Prelude.{◌≡◌, ◌≤◌, [], Ok, Err, IfErr, OnOk};
ghost use Rattle.jf_names.specs.Names.{max_names};
ghost use Rattle.jf_names.specs.NameLines.{no_names, after_name, TakesName};

use crate::fault::NamesFault;
use crate::names::NameMap;
use jf_input::{AtHand, LineMachine};
use jf_many_blocks::MAX_CLAIMS;
use jf_path::Bytes;
use jf_text::name_of;
use std::alloc::Global;
use std::marker::Model;

// The most lines of an input of names: each may be a claim of the one block.
const MAX_NAMES: u64 = MAX_CLAIMS;

/// Reads names line by line, and adds nothing to a text. It stops at a line that isn't a name, or is one too many.
#[derive(Drop)]
pub(crate) struct NameReader {
    at: u64,
    names: NameMap,
}

impl Model for NameReader {
    ghost use Rattle.jf_names.specs.NameLines.{NamesSoFar};

    ghost Value = { NamesSoFar };

    ghost view = { λ r. record { at = r.at; names = r.names } };
}

impl NameReader {
    /// Begins before the first line.
    pub(crate) fn new(alloc: Global) -> NameReader
        ensures { result ≡ no_names }
    {
        NameReader {
            at: 1,
            names: NameMap::new(alloc),
        }
    }

    // Reads the next line.
    fn line(&mut self, alloc: Global, line: &[u8]) -> Result<(), NamesFault>
        ensures ok { OnOk result (TakesName self.old line.now self.new (Ok [])) }
        ensures err { IfErr result (λ why. TakesName self.old line.now self.new (Err why)) }
    {
        if self.at > MAX_NAMES {
            return Err(NamesFault::Line(self.at));
        }
        match name_of(alloc, line)? {
            Some(name) => self.add(name),
            None => Err(NamesFault::Line(self.at)),
        }
    }

    // Adds the name of the next line.
    fn add(&mut self, name: Bytes) -> Result<(), NamesFault>
        requires { self.old.at ≤ max_names }
        ensures ok { OnOk result (self.new ≡ after_name self.old name) }
        ensures err { IfErr result (λ why. why ≡ NamesFault.Memory) }
    {
        self.names.add(name)?;
        self.at += 1;
        Ok(())
    }

    /// The names of the lines.
    pub(crate) fn end(self) -> NameMap
        ensures { result ≡ self.names }
    {
        self.names
    }
}

impl LineMachine for NameReader {
    ghost use Rattle.std.specs.Prelude.{⊤};
    ghost use Rattle.jf_names.specs.NameLines.{TakesName, EndsNames};

    type Stop = NamesFault;

    ghost ready = { λ _. ⊤ };

    ghost takes = { λ s line next r. TakesName s line next r };

    ghost ends = { λ s next r. EndsNames s next r };

    // It touches nothing but itself.
    ghost quiet = { λ _ _. ⊤ };

    fn is_quiet(&self, _line: &[u8]) -> bool {
        true
    }

    fn take_line(&mut self, alloc: Global, at: AtHand, _out: &mut Bytes) -> Result<(), NamesFault> {
        self.line(alloc, at.line)
    }

    fn take_end(&mut self, _alloc: Global, _out: &mut Bytes) -> Result<(), NamesFault> {
        Ok(())
    }
}
