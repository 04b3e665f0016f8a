// The effect of one line on the blocks.
ghost use Rattle.std.specs.Prelude.{◌≡◌, ◌+◌, ◌≤◌, ◌<◌, ◌++◌, ◌∷◌, [], length, if◌then◌else◌, true, Some, None, IfOk, OnOk, IfSome};
ghost use Rattle.jf_path.specs.Limits.{max_value};
ghost use Rattle.jf_split.specs.Limits.{max_keys};
ghost use Rattle.jf_blocks.specs.Reading.{line_read};
ghost use Rattle.jf_lead.specs.declared.stage.Stage.TheVariants as stage;
ghost use Rattle.jf_lead.specs.Reading.{landing_line_of, is_above, change_after};
ghost use Rattle.jf_lead.specs.Steps.{HasChangesLeft, landing_line_step, landing_head_step, change_step, whole_or_begun, step_to};

use crate::block::LandingBlock;
use crate::change::change_line;
use crate::fault::LandingFault;
use crate::head::landing_line;
use crate::stage::{Begun, Stage, Step};
use jf_path::{Bytes, Key, Memory};
use jf_split::{Batch, BatchFault};
use std::alloc::Global;

/// Reads line `at`.
#[tactic(auto, unfolding(crate::specs::Steps::landing_line_step))]
pub(crate) fn read_line(alloc: Global, at: u64, stage: Stage, line: &[u8]) -> Result<Step, Memory>
    requires { HasChangesLeft stage }
    ensures value { IfOk result (λ s. s ≡ landing_line_step at stage line.now) }
    ensures room { IfOk result (λ s. HasChangesLeft s.stage) }
{
    match stage {
        Stage::Between => Ok(begin(alloc, at, line)),
        Stage::Block(begun) => go_on(alloc, at, begun, line),
        Stage::Refused(why) => Ok(step_to(Stage::Refused(why))),
    }
}

/// A step with which no block ends.
fn step_to(stage: Stage) -> Step
    ensures { result ≡ step_to stage }
{
    Step { stage, block: None }
}

/// Reads the first line of a block.
fn begin(alloc: Global, at: u64, line: &[u8]) -> Step
    ensures value { result ≡ landing_head_step at (line_read landing_line_of line.now) }
    ensures room { HasChangesLeft result.stage }
{
    match landing_line(line) {
        Some(head) => {
            let root = head.root;
            whole_or_begun(Begun {
                first: at,
                version: head.version,
                root,
                changes_left: head.changes,
                batch: Batch::new(alloc),
            })
        }
        None => step_to(Stage::Refused(LandingFault::Line(at))),
    }
}

/// Reads another line of a block.
fn go_on(alloc: Global, at: u64, begun: Begun, line: &[u8]) -> Result<Step, Memory>
    requires { HasChangesLeft (stage.Block begun) }
    ensures value { IfOk result (λ s. s ≡ change_step at begun (line_read (change_after begun.batch) line.now)) }
    ensures room { IfOk result (λ s. HasChangesLeft s.stage) }
{
    match change_line(alloc, line)? {
        Some(change) => {
            let key = change.0;
            add(alloc, at, begun, &key, change.1)
        }
        None => Ok(step_to(Stage::Refused(LandingFault::Line(at)))),
    }
}

/// Adds a change to a block, if its key is above the one before.
fn add(
    alloc: Global,
    at: u64,
    begun: Begun,
    key: &Key,
    value: Option<Bytes>,
) -> Result<Step, Memory>
    requires room { HasChangesLeft (stage.Block begun) }
    requires short { IfSome value (λ v. length v ≤ max_value) }
    ensures value { IfOk result (λ s. s ≡ change_step at begun (if is_above key.now begun.batch then Some (key.now, value) else None)) }
    ensures room { IfOk result (λ s. HasChangesLeft s.stage) }
{
    if !is_above(key, &begun.batch) {
        return Ok(step_to(Stage::Refused(LandingFault::Line(at))));
    }
    let mut begun = begun;
    push(alloc, &mut begun.batch, key, value)?;
    begun.changes_left = begun.changes_left.saturating_sub(1);
    Ok(whole_or_begun(begun))
}

/// Whether a key is above the last one of a batch.
fn is_above(key: &Key, batch: &Batch) -> bool
    ensures { result ≡ is_above key.now batch.now }
{
    match batch.as_slice().last() {
        Some(last) => last.0.cmp(key).is_lt(),
        None => true,
    }
}

/// Adds a change of a key above all of a batch.
fn push(alloc: Global, batch: &mut Batch, key: &Key, value: Option<Bytes>) -> Result<(), Memory>
    requires above { is_above key.now batch.old ≡ true }
    requires room { length batch.old < max_keys }
    requires short { IfSome value (λ v. length v ≤ max_value) }
    ensures ok { OnOk result (batch.new ≡ batch.old ++ (key.now, value) ∷ []) }
{
    let _ = batch.as_slice();
    match value {
        Some(bytes) => match batch.put(alloc, key, bytes.as_slice()) {
            Ok(()) => Ok(()),
            Err(BatchFault::Memory) => Err(Memory),
            Err(BatchFault::Full) => unreachable!(),
        },
        None => match batch.del(alloc, key) {
            Ok(()) => Ok(()),
            Err(BatchFault::Memory) => Err(Memory),
            Err(BatchFault::Full) => unreachable!(),
        },
    }
}

/// What was read of a block, which is whole if no change is to come.
fn whole_or_begun(begun: Begun) -> Step
    requires { length begun.batch + begun.changes_left ≤ max_keys }
    ensures value { result ≡ whole_or_begun begun }
    ensures room { HasChangesLeft result.stage }
{
    if begun.changes_left > 0 {
        return step_to(Stage::Block(begun));
    }
    let Begun {
        first,
        version,
        root,
        changes_left: _,
        batch,
    } = begun;
    let block = LandingBlock {
        version,
        root,
        batch,
    };
    Step {
        stage: Stage::Between,
        block: Some((first, block)),
    }
}
