// The effect of one line on a block and on the restore.
ghost use Rattle.std.specs.Prelude.{◌≡◌, IfOk, OnErr};
ghost use Rattle.jf_blocks.specs.Reading.{line_read, chunk_of, entry_of, side_of};
ghost use Rattle.jf_restore.specs.Restores.{HaveShortValues};
ghost use Rattle.jf_receive.specs.Steps.{IsRestoredBy, IsShort, restoring_line_step, head_step, block_step, entry_step, sibling_step, step_within_block, step_at_block_end};

use crate::fault::BlockFault;
use crate::stage::{Begun, Stage};
use jf_blocks::{chunk_line, entry_line, keep_side, side_line};
use jf_evidence::RangeProof;
use jf_path::{HashList, Memory, Pairs};
use jf_restore::{Restore, RestoreRefused};
use std::alloc::Global;

/// Reads line `at`, adds the block if this is its last line, and returns how far the blocks are read after it. If the
/// line or the block is refused, or memory runs out, the restore is unchanged.
#[tactic(auto, unfolding(crate::specs::Steps::restoring_line_step))]
pub(crate) fn read_line(
    alloc: Global,
    restore: &mut Restore,
    at: u64,
    stage: Stage,
    line: &[u8],
) -> Result<Stage, Memory>
    requires { IsShort stage }
    ensures ok { IfOk result (λ next. IsRestoredBy (restoring_line_step restore.old at stage line.now) restore.new next) }
    ensures short { IfOk result (λ next. IsShort next) }
    ensures err { OnErr result (restore.new ≡ restore.old) }
{
    match stage {
        Stage::Between => begin(alloc, restore, at, line),
        Stage::Block(begun) => go_on(alloc, restore, at, begun, line),
        Stage::Refused(why) => Ok(Stage::Refused(why)),
    }
}

/// Reads the first line of a block.
fn begin(alloc: Global, restore: &mut Restore, at: u64, line: &[u8]) -> Result<Stage, Memory>
    ensures ok { IfOk result (λ next. IsRestoredBy (head_step restore.old at (line_read chunk_of line.now)) restore.new next) }
    ensures short { IfOk result (λ next. IsShort next) }
    ensures err { OnErr result (restore.new ≡ restore.old) }
{
    match chunk_line(line) {
        Some(head) => {
            let siblings = HashList::new(alloc);
            let depth = head.depth;
            let begun = Begun {
                first: at,
                entries_left: head.entries,
                siblings_left: head.siblings,
                entries: Pairs::new(alloc),
                proof: RangeProof { depth, siblings },
            };
            settle(restore, begun)
        }
        None => Ok(Stage::Refused(BlockFault::Line(at))),
    }
}

/// Reads another line of a block.
fn go_on(
    alloc: Global,
    restore: &mut Restore,
    at: u64,
    begun: Begun,
    line: &[u8],
) -> Result<Stage, Memory>
    requires { HaveShortValues begun.entries }
    ensures ok { IfOk result (λ next. IsRestoredBy (block_step restore.old at begun line.now) restore.new next) }
    ensures short { IfOk result (λ next. IsShort next) }
    ensures err { OnErr result (restore.new ≡ restore.old) }
{
    if begun.entries_left > 0 {
        entry(alloc, restore, at, begun, line)
    } else {
        side(restore, at, begun, line)
    }
}

/// Reads the line of an entry.
fn entry(
    alloc: Global,
    restore: &mut Restore,
    at: u64,
    begun: Begun,
    line: &[u8],
) -> Result<Stage, Memory>
    requires { HaveShortValues begun.entries }
    ensures ok { IfOk result (λ next. IsRestoredBy (entry_step restore.old at begun (line_read entry_of line.now)) restore.new next) }
    ensures short { IfOk result (λ next. IsShort next) }
    ensures err { OnErr result (restore.new ≡ restore.old) }
{
    match entry_line(alloc, line)? {
        Some(entry) => {
            let mut begun = begun;
            begun.entries.push(entry)?;
            begun.entries_left = begun.entries_left.saturating_sub(1);
            settle(restore, begun)
        }
        None => Ok(Stage::Refused(BlockFault::Line(at))),
    }
}

/// Reads the line of a sibling. It is counted, and kept if it is among the first 257.
fn side(restore: &mut Restore, at: u64, begun: Begun, line: &[u8]) -> Result<Stage, Memory>
    requires { HaveShortValues begun.entries }
    ensures ok { IfOk result (λ next. IsRestoredBy (sibling_step restore.old at begun (line_read side_of line.now)) restore.new next) }
    ensures short { IfOk result (λ next. IsShort next) }
    ensures err { OnErr result (restore.new ≡ restore.old) }
{
    match side_line(line) {
        Some(sibling) => {
            let mut begun = begun;
            keep_side(&mut begun.proof.siblings, sibling)?;
            begun.siblings_left = begun.siblings_left.saturating_sub(1);
            settle(restore, begun)
        }
        None => Ok(Stage::Refused(BlockFault::Line(at))),
    }
}

/// Adds what was read of a block, if no line of it is missing.
fn settle(restore: &mut Restore, begun: Begun) -> Result<Stage, Memory>
    requires { HaveShortValues begun.entries }
    ensures ok { IfOk result (λ next. IsRestoredBy (step_within_block restore.old begun) restore.new next) }
    ensures short { IfOk result (λ next. IsShort next) }
    ensures err { OnErr result (restore.new ≡ restore.old) }
{
    if begun.entries_left > 0 || begun.siblings_left > 0 {
        return Ok(Stage::Block(begun));
    }
    add(restore, &begun)
}

/// Adds a whole block.
fn add(restore: &mut Restore, begun: &Begun) -> Result<Stage, Memory>
    requires { HaveShortValues begun.now.entries }
    ensures ok { IfOk result (λ next. IsRestoredBy (step_at_block_end restore.old begun.now) restore.new next) }
    ensures short { IfOk result (λ next. IsShort next) }
    ensures err { OnErr result (restore.new ≡ restore.old) }
{
    match restore.add(&begun.entries, &begun.proof) {
        Ok(()) => Ok(Stage::Between),
        Err(RestoreRefused::Chunk(why)) => {
            Ok(Stage::Refused(BlockFault::Chunk(begun.first, why)))
        }
        Err(RestoreRefused::NotWhole(_) | RestoreRefused::Engine(_)) => unreachable!(),
        Err(RestoreRefused::Memory) => Err(Memory),
    }
}
