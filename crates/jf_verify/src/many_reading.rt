// The effect of one line more on a block of many claims.
ghost use Rattle.std.specs.Prelude.{◌∷◌, ◌++◌, []};
ghost use Rattle.jf_blocks.specs.Reading.{line_read};
ghost use Rattle.jf_many_blocks.specs.ManyReading.{named_claim_of, item_of};
ghost use Rattle.jf_multi.specs.Verdicts.{many_refusal};
ghost use Rattle.jf_verify.specs.Verdicts.{HasWritten, many_verdict_text};
ghost use Rattle.jf_verify.specs.Steps.{IsTaken, claims_turn, items_turn, one_item_less, many_begins, many_claim_turn, many_item_turn};

use crate::answers::write_many_verdict;
use crate::many_stage::ManyHeading;
use crate::no_match::no_match;
use crate::stage::Stage;
use jf_hash::{Hash, key_of};
use jf_many_blocks::{ManyHead, item_line, named_claim_line};
use jf_multi::{Claims, Item, ItemList, ManyProof, verify_many};
use jf_path::{Bytes, Memory};
use std::alloc::Global;

/// The first line of a block, under the root that was set, if one was.
pub(crate) fn begin_many(
    alloc: Global,
    at: u64,
    head: ManyHead,
    root: Option<Hash>,
    out: &mut Bytes,
) -> Result<Stage, Memory>
    ensures { IsTaken (many_begins at head root) result out.old out.new }
{
    match root {
        Some(root) => {
            let heading = ManyHeading {
                root,
                claims: head.claims,
                items: head.items,
            };
            after_claims(alloc, heading, Claims::new(alloc), out)
        }
        None => no_match(at, out),
    }
}

/// The line of a claim.
pub(crate) fn many_claim(
    alloc: Global,
    at: u64,
    heading: ManyHeading,
    claims: Claims,
    line: &[u8],
    out: &mut Bytes,
) -> Result<Stage, Memory>
    ensures { IsTaken (many_claim_turn at heading claims (line_read named_claim_of line.now)) result out.old out.new }
{
    match named_claim_line(alloc, line)? {
        Some((name, claim)) => {
            let mut claims = claims;
            claims.push((key_of(name.as_slice()), claim))?;
            let mut heading = heading;
            heading.claims = heading.claims.saturating_sub(1);
            after_claims(alloc, heading, claims, out)
        }
        None => no_match(at, out),
    }
}

/// The line of an item.
pub(crate) fn many_item(
    alloc: Global,
    at: u64,
    heading: ManyHeading,
    claims: Claims,
    items: ItemList,
    line: &[u8],
    out: &mut Bytes,
) -> Result<Stage, Memory>
    ensures { IsTaken (many_item_turn at heading claims items (line_read item_of line.now)) result out.old out.new }
{
    match item_line(line) {
        Some(item) => with_item(alloc, heading, claims, items, item, out),
        None => no_match(at, out),
    }
}

/// An item more.
fn with_item(
    alloc: Global,
    heading: ManyHeading,
    claims: Claims,
    items: ItemList,
    item: Item,
    out: &mut Bytes,
) -> Result<Stage, Memory>
    ensures { IsTaken (items_turn (one_item_less heading) claims (items ++ item ∷ [])) result out.old out.new }
{
    let mut items = items;
    items.push(item)?;
    let mut heading = heading;
    heading.items = heading.items.saturating_sub(1);
    after_items(alloc, heading, claims, items, out)
}

/// After claims, items come if no claim is missing.
fn after_claims(
    alloc: Global,
    heading: ManyHeading,
    claims: Claims,
    out: &mut Bytes,
) -> Result<Stage, Memory>
    ensures { IsTaken (claims_turn heading claims) result out.old out.new }
{
    if heading.claims > 0 {
        return Ok(Stage::ManyClaims(heading, claims));
    }
    after_items(alloc, heading, claims, ItemList::new(alloc), out)
}

/// After items, the block is judged if no item is missing.
fn after_items(
    alloc: Global,
    heading: ManyHeading,
    claims: Claims,
    items: ItemList,
    out: &mut Bytes,
) -> Result<Stage, Memory>
    ensures { IsTaken (items_turn heading claims items) result out.old out.new }
{
    if heading.items > 0 {
        return Ok(Stage::ManyItems(heading, claims, items));
    }
    judge_many(alloc, &heading.root, &claims, items, out)?;
    Ok(Stage::Between)
}

/// Judges a whole block, and appends the verdict.
#[tactic(auto, using(crate::proofs::ManyPlaces::many_refusal_names))]
fn judge_many(
    alloc: Global,
    root: &Hash,
    claims: &Claims,
    items: ItemList,
    out: &mut Bytes,
) -> Result<(), Memory>
    ensures { HasWritten result out.old out.new (many_verdict_text (many_refusal root.now claims.now items)) }
{
    let proof = ManyProof::of(alloc, items)?;
    let verdict = verify_many(root, claims, &proof);
    write_many_verdict(verdict, claims.len(), out)
}
