// Chunk blocks, read as the lines of an input.
ghost use Rattle.std.specs.Prelude.{◌≡◌, Ok, Err, [], IfErr, OnOk};
ghost use Rattle.jf_receive.specs.Steps.{restoring_start, restored_at_end};
ghost use Rattle.jf_receive.specs.TakenLines.{TakesBlockLine};

use crate::blocks::Blocks;
use crate::fault::BlockFault;
use crate::laws::long_lines_are_alike;
use jf_input::{AtHand, LineMachine};
use jf_path::Bytes;
use jf_restore::Restore;
use std::alloc::Global;
use std::marker::Model;

/// Reads chunk blocks line by line, and adds nothing to a text. It stops at a line that is refused.
#[derive(Drop)]
pub(crate) struct BlockReader {
    blocks: Blocks,
}

impl Model for BlockReader {
    ghost use Rattle.jf_receive.specs.Steps.{Restoring};

    ghost Value = { Restoring };

    ghost view = { λ r. r.blocks };
}

impl BlockReader {
    /// Begins before the first line, with a restore to which the blocks are to be added.
    pub(crate) fn new(alloc: Global, restore: Restore) -> BlockReader
        ensures { result ≡ restoring_start restore }
    {
        BlockReader {
            blocks: Blocks::new(alloc, restore),
        }
    }

    /// Reads the next line.
    fn line(&mut self, line: &[u8]) -> Result<(), BlockFault>
        ensures ok { OnOk result (TakesBlockLine self.old line.now self.new (Ok [])) }
        ensures err { IfErr result (λ why. TakesBlockLine self.old line.now self.new (Err why)) }
    {
        self.blocks.line(line)
    }

    /// Ends the lines. Returns what is restored, if they were whole blocks that were all accepted.
    pub(crate) fn end(self) -> Result<Restore, BlockFault>
        ensures { result ≡ restored_at_end self }
    {
        self.blocks.end()
    }
}

impl LineMachine for BlockReader {
    ghost use Rattle.std.specs.Prelude.{⊤};
    ghost use Rattle.jf_receive.specs.TakenLines.{TakesBlockLine, EndsBlockLines};

    type Stop = BlockFault;

    ghost ready = { λ _. ⊤ };

    ghost takes = { λ s line next r. TakesBlockLine s line next r };

    ghost ends = { λ s next r. EndsBlockLines s next r };

    // It touches nothing but itself.
    ghost quiet = { λ _ _. ⊤ };

    fn is_quiet(&self, _line: &[u8]) -> bool {
        true
    }

    fn take_line(
        &mut self,
        _alloc: Global,
        next: AtHand,
        _out: &mut Bytes,
    ) -> Result<(), BlockFault> {
        long_lines_are_alike();
        self.line(next.line)
    }

    fn take_end(&mut self, _alloc: Global, _out: &mut Bytes) -> Result<(), BlockFault> {
        Ok(())
    }
}
