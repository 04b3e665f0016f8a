// Chunk blocks that are read line by line, as docs/FORMATS.md gives them.
ghost use Rattle.std.specs.Prelude.{◌≡◌, ◌⊎◌, None, Ok, OnOk, OnErr};
ghost use Rattle.jf_receive.specs.Steps.{restoring_start, restoring_after, line_result, restored_at_end, out_of_memory, refusal_at_stage};

use crate::block_line::read_line;
use crate::fault::BlockFault;
use crate::stage::Stage;
use jf_path::Memory;
use jf_restore::Restore;
use std::alloc::Global;
use std::marker::Model;
use std::mem::replace;

/// Reads chunk blocks line by line, each line given without the byte that ends it, and adds each block to a restore
/// when its last line has come. Of a line of more than 8,500 bytes the first 8,501 will do.
///
/// A line that doesn't match is refused at that line, and a block that isn't accepted at its last line. After a refusal
/// nothing more is read, and each later call returns the same.
#[derive(Drop)]
pub struct Blocks {
    alloc: Global,
    restore: Restore,
    at: u64,
    stage: Stage,
}

impl Model for Blocks {
    ghost use Rattle.jf_receive.specs.Steps.{Restoring, IsShort};

    ghost Value = { Restoring };

    ghost view = { λ b. record { restore = b.restore; at = b.at; stage = b.stage } };

    ghost invariant = { λ b. IsShort b.stage };
}

impl Blocks {
    /// Begins before the first line. The blocks are to be added to what `restore` has.
    pub fn new(alloc: Global, restore: Restore) -> Blocks
        ensures { result ≡ restoring_start restore }
    {
        Blocks {
            alloc,
            restore,
            at: 1,
            stage: Stage::Between,
        }
    }

    /// Reads the next line. Refuses a line that doesn't match, and at its last line a block that isn't accepted. If it
    /// is out of memory, what was added before stays.
    pub fn line(&mut self, line: &[u8]) -> Result<(), BlockFault>
        // The result is the refusal that stands after this line, or `Ok` if none does.
        ensures answer { result ≡ line_result self.new.stage }
        // The line was read; or, if nothing was refused before, memory ran out: what was added stays, no later line is read.
        ensures after { (self.new ≡ restoring_after self.old line.now) ⊎ ((refusal_at_stage self.old.stage ≡ None) × (self.new ≡ out_of_memory self.old)) }
    {
        if let Stage::Refused(why) = self.stage {
            return Err(why);
        }
        match self.behind(line) {
            Ok(()) => self.answer(),
            Err(Memory) => Err(BlockFault::Memory),
        }
    }

    /// Ends the lines. Returns what is restored, if they were whole blocks that were all accepted.
    pub fn end(self) -> Result<Restore, BlockFault>
        // In the middle of a block it is refused as `Line` of the line that is missing; an earlier refusal is returned.
        ensures { result ≡ restored_at_end self }
    {
        let Blocks {
            alloc: _,
            restore,
            at,
            stage,
        } = self;
        match stage {
            Stage::Between => Ok(restore),
            Stage::Block(_) => Err(BlockFault::Line(at)),
            Stage::Refused(why) => Err(why),
        }
    }

    /// Goes on by one line. If it is out of memory, no later line is read.
    fn behind(&mut self, line: &[u8]) -> Result<(), Memory>
        requires { line_result self.old.stage ≡ Ok tt }
        ensures ok { OnOk result (self.new ≡ restoring_after self.old line.now) }
        ensures err { OnErr result (self.new ≡ out_of_memory self.old) }
    {
        let stage = replace(&mut self.stage, Stage::Refused(BlockFault::Memory));
        let Some(next) = self.at.checked_add(1) else {
            return Err(Memory);
        };
        let stage = read_line(self.alloc, &mut self.restore, self.at, stage, line)?;
        self.at = next;
        self.stage = stage;
        Ok(())
    }

    /// What the last line returns.
    fn answer(&self) -> Result<(), BlockFault>
        ensures { result ≡ line_result self.now.stage }
    {
        match self.stage {
            Stage::Refused(why) => Err(why),
            _ => Ok(()),
        }
    }
}
