// The effect of one line more on a judge, by how far the present block is read.
ghost use Rattle.jf_blocks.specs.Reading.{line_read, named_of, claim_of};
ghost use Rattle.jf_verify.specs.Openings.{opening_of};
ghost use Rattle.jf_verify.specs.Steps.{IsMade, IsTaken, begins, first_step, name_turn, claim_turn, step_of_block, with_side, one_less, line_step};

use crate::known::Known;
use crate::many_reading::{begin_many, many_claim, many_item};
use crate::no_match::no_match;
use crate::opening::{Opening, opening_line};
use crate::stage::{Heading, Stage};
use jf_blocks::{claim_line, keep_side, leaf_line, name_line, side_line};
use jf_collide::Judged;
use jf_hash::{Hash, key_of};
use jf_path::{Bytes, HashList, Key, Memory};
use jf_proof::Proof;
use std::alloc::Global;

/// Reads line `at`, appends the text that answers it, and returns how far a block is read after it. If memory runs out,
/// a part of that text may have been appended.
#[tactic(auto, unfolding(crate::specs::Steps::line_step))]
pub(crate) fn read_line(
    alloc: Global,
    known: &mut Known,
    at: u64,
    stage: Stage,
    line: &[u8],
    out: &mut Bytes,
) -> Result<Stage, Memory>
    ensures { IsMade (line_step at known.old stage line.now) result out.old out.new known.new }
{
    match stage {
        Stage::Between => between(alloc, known, at, line, out),
        Stage::Name(heading) => name(alloc, at, heading, line, out),
        Stage::Claim(heading, key) => claim(alloc, at, heading, key, line, out),
        Stage::Leaf(heading, key, claim) => match leaf_line(line) {
            Some(leaf) => {
                let siblings = HashList::new(alloc);
                let proof = Proof { leaf, siblings };
                go_on(alloc, known, heading, Judged { key, claim, proof }, out)
            }
            None => no_match(at, out),
        },
        Stage::Sides(heading, judged) => match side_line(line) {
            Some(sibling) => side(alloc, known, heading, judged, sibling, out),
            None => no_match(at, out),
        },
        Stage::ManyClaims(heading, claims) => many_claim(alloc, at, heading, claims, line, out),
        Stage::ManyItems(heading, claims, items) => {
            many_item(alloc, at, heading, claims, items, line, out)
        }
    }
}

/// A line between blocks.
fn between(
    alloc: Global,
    known: &mut Known,
    at: u64,
    line: &[u8],
    out: &mut Bytes,
) -> Result<Stage, Memory>
    ensures { IsMade (first_step at known.old (line_read opening_of line.now)) result out.old out.new known.new }
{
    match opening_line(line) {
        Some(Opening::Root(root)) => {
            known.set_root(root);
            Ok(Stage::Between)
        }
        Some(Opening::Proof(siblings)) => begin(known, at, siblings, out),
        Some(Opening::Many(head)) => begin_many(alloc, at, head, known.root(), out),
        None => no_match(at, out),
    }
}

/// The first line of a block.
fn begin(known: &Known, at: u64, siblings: u64, out: &mut Bytes) -> Result<Stage, Memory>
    ensures { IsTaken (begins at siblings known.now.root) result out.old out.new }
{
    match known.root() {
        Some(root) => Ok(Stage::Name(Heading {
            root,
            missing: siblings,
        })),
        None => no_match(at, out),
    }
}

/// The line of a name.
fn name(
    alloc: Global,
    at: u64,
    heading: Heading,
    line: &[u8],
    out: &mut Bytes,
) -> Result<Stage, Memory>
    ensures { IsTaken (name_turn at heading (line_read named_of line.now)) result out.old out.new }
{
    match name_line(alloc, line)? {
        Some(name) => Ok(Stage::Claim(heading, key_of(name.as_slice()))),
        None => no_match(at, out),
    }
}

/// The line of a claim.
fn claim(
    alloc: Global,
    at: u64,
    heading: Heading,
    key: Key,
    line: &[u8],
    out: &mut Bytes,
) -> Result<Stage, Memory>
    ensures { IsTaken (claim_turn at heading key (line_read claim_of line.now)) result out.old out.new }
{
    match claim_line(alloc, line)? {
        Some(claim) => Ok(Stage::Leaf(heading, key, claim)),
        None => no_match(at, out),
    }
}

/// A sibling. It is counted, and kept if it is among the first 257.
fn side(
    alloc: Global,
    known: &mut Known,
    heading: Heading,
    judged: Judged,
    sibling: Hash,
    out: &mut Bytes,
) -> Result<Stage, Memory>
    ensures { IsMade (step_of_block known.old (one_less heading) (with_side judged sibling)) result out.old out.new known.new }
{
    let mut judged = judged;
    keep_side(&mut judged.proof.siblings, sibling)?;
    let mut heading = heading;
    heading.missing = heading.missing.saturating_sub(1);
    go_on(alloc, known, heading, judged, out)
}

/// What was read of a block: it is judged if no sibling is missing.
fn go_on(
    alloc: Global,
    known: &mut Known,
    heading: Heading,
    judged: Judged,
    out: &mut Bytes,
) -> Result<Stage, Memory>
    ensures { IsMade (step_of_block known.old heading judged) result out.old out.new known.new }
{
    if heading.missing > 0 {
        return Ok(Stage::Sides(heading, judged));
    }
    known.judge(alloc, heading.root, judged, out)?;
    Ok(Stage::Between)
}
