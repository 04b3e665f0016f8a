// Landing blocks that are read line by line, as docs/FORMATS.md gives them.
ghost use Rattle.std.specs.Prelude.{◌≡◌, ◌⊎◌, None, Some, IfOk, IfErr, OnOk, OnErr};
ghost use Rattle.jf_lead.specs.Steps.{begun_reading, reading_after, ended_block, stopped_reading, stage_refusal, refusal_at_end};

use crate::block::LandingBlock;
use crate::fault::LandingFault;
use crate::stage::Stage;
use crate::steps::read_line;
use jf_path::Memory;
use std::alloc::Global;
use std::marker::Model;
use std::mem::replace;

/// Reads landing blocks line by line, each line given without the byte that ends it, and gives each block when its last
/// line has come. Of a line of more than 8,500 bytes the first 8,501 will do.
///
/// A line that doesn't match is refused at that line. After a refusal nothing more is read, and each later call returns
/// the same.
#[derive(Drop)]
pub struct LandingReader {
    alloc: Global,
    at: u64,
    stage: Stage,
}

impl Model for LandingReader {
    ghost use Rattle.jf_lead.specs.Steps.{LandingReading, HasChangesLeft};

    ghost Value = { LandingReading };

    ghost view = { λ r. record { at = r.at; stage = r.stage } };

    ghost invariant = { λ r. HasChangesLeft r.stage };
}

impl LandingReader {
    /// Begins before the first line.
    pub fn new(alloc: Global) -> LandingReader
        // No line was read, and the next one is line 1.
        ensures { result ≡ begun_reading }
    {
        LandingReader {
            alloc,
            at: 1,
            stage: Stage::Between,
        }
    }

    /// Reads the next line. Returns the block that ends with it, if one does, and the number of that block's first line.
    /// Refuses a line that doesn't match (`Line`), and any line if memory runs out (`Memory`): nothing more is read then,
    /// and later calls of `line` and `end` return the same.
    pub fn line(&mut self, line: &[u8]) -> Result<Option<(u64, LandingBlock)>, LandingFault>
        // After Ok, the result is the block that ends with the line, with the number of its first line, if one does.
        ensures block { IfOk result (λ block. block ≡ ended_block self.old line.now) }
        // After Ok, the line was read, and nothing was refused so far.
        ensures ok { OnOk result ((self.new ≡ reading_after self.old line.now) × (stage_refusal self.new.stage ≡ None)) }
        // After Err, this refusal is kept: each later call returns it.
        ensures err { IfErr result (λ why. stage_refusal self.new.stage ≡ Some why) }
        // The line was read, or memory ran out before anything was refused, and no later line is read.
        ensures after { (self.new ≡ reading_after self.old line.now) ⊎ ((stage_refusal self.old.stage ≡ None) × (self.new ≡ stopped_reading self.old)) }
    {
        if let Stage::Refused(why) = self.stage {
            return Err(why);
        }
        match self.advance(line) {
            Ok(block) => self.answer(block),
            Err(Memory) => Err(LandingFault::Memory),
        }
    }

    /// Ends the lines. Refuses the line that is missing, if they end in the middle of a block.
    pub fn end(&self) -> Result<(), LandingFault>
        // After Ok, nothing was refused, and no block is unfinished.
        ensures ok { OnOk result (refusal_at_end self.now.at self.now.stage ≡ None) }
        // After Err, this is the refusal so far, or the number of the line that an unfinished block lacks.
        ensures err { IfErr result (λ why. refusal_at_end self.now.at self.now.stage ≡ Some why) }
    {
        match self.stage {
            Stage::Between => Ok(()),
            Stage::Block(_) => Err(LandingFault::Line(self.at)),
            Stage::Refused(why) => Err(why),
        }
    }

    /// Goes on by one line. If it is out of memory, no later line is read.
    fn advance(&mut self, line: &[u8]) -> Result<Option<(u64, LandingBlock)>, Memory>
        requires { stage_refusal self.old.stage ≡ None }
        ensures ok { OnOk result (self.new ≡ reading_after self.old line.now) }
        ensures block { IfOk result (λ block. block ≡ ended_block self.old line.now) }
        ensures err { OnErr result (self.new ≡ stopped_reading self.old) }
    {
        let stage = replace(&mut self.stage, Stage::Refused(LandingFault::Memory));
        let Some(next) = self.at.checked_add(1) else {
            return Err(Memory);
        };
        let step = read_line(self.alloc, self.at, stage, line)?;
        self.at = next;
        self.stage = step.stage;
        Ok(step.block)
    }

    /// What a line returns with which this block ends, if one does.
    fn answer(
        &self,
        block: Option<(u64, LandingBlock)>,
    ) -> Result<Option<(u64, LandingBlock)>, LandingFault>
        ensures block { IfOk result (λ b. b ≡ block) }
        ensures ok { OnOk result (stage_refusal self.now.stage ≡ None) }
        ensures err { IfErr result (λ why. stage_refusal self.now.stage ≡ Some why) }
    {
        match self.stage {
            Stage::Refused(why) => Err(why),
            _ => Ok(block),
        }
    }
}
