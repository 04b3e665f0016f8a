// Two different lists of one length and one total: in their trees, two different inputs have one hash.
ghost use Rattle.std.specs.Prelude.{◌≡◌, ◌≢◌, length, IfOk};
ghost use Rattle.jf_hash.specs.Hashes.{IsCollision};
ghost use Rattle.jf_accum.specs.Totals.{total};

use crate::inputs::{parts_clash, single_clash};
use crate::parts::left_count;
use crate::plain::plain_total;
use jf_hash::Hash;
use jf_path::{Bytes, Memory};
use std::alloc::Global;

// The inputs of the first two totals that differ, from the whole lists down, or those of two hashes.
pub(crate) fn lists_clash(
    alloc: Global,
    first: &[Hash],
    second: &[Hash],
) -> Result<(Bytes, Bytes), Memory>
    requires long { length first.now ≡ length second.now }
    requires meet { total first.now ≡ total second.now }
    requires apart { first.now ≢ second.now }
    ensures { IfOk result (λ found. IsCollision found.0 found.1) }
{
    if first.len() < 2 {
        return single_clash(alloc, &first[0], &second[0]);
    }
    let k = left_count(first.len() as u64) as usize;
    let (left, right) = first.split_at(k);
    let (other_left, other_right) = second.split_at(k);
    let left_total = plain_total(left);
    let right_total = plain_total(right);
    if let Some(found) = parts_clash(alloc, &left_total, &right_total, other_left, other_right)? {
        return Ok(found);
    }
    if left != other_left {
        return lists_clash(alloc, left, other_left);
    }
    lists_clash(alloc, right, other_right)
}
