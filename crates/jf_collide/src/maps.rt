// Two maps of one root: they are the same, or their roots hash two different lists to one hash.
ghost use Rattle.std.specs.Prelude.{◌≡◌, ◌≢◌, ◌↔◌, IsTrue, MatchResult, T};
ghost use Rattle.std.specs.FinMap.{is_sorted};
ghost use Rattle.jf_path.specs.Keys.{key_cmp};
ghost use Rattle.jf_hash.specs.Roots.{part_root};
ghost use Rattle.jf_collide.specs.Maps.{IsMapsAnswer};

use crate::difference::first_difference;
use crate::parts::whole_inputs;
use jf_path::{Bytes, Key, Memory, Pairs, know_entries};
use std::alloc::Global;

/// Compares two maps that have one root, given by their entries in the order of their keys. Returns `None` if they are
/// the same, otherwise two different lists with one SHA-256, the first map's first. If one map is given twice, no
/// memory is taken.
pub fn maps_collide(
    alloc: Global,
    first: &Pairs,
    second: &Pairs,
) -> Result<Option<(Bytes, Bytes)>, Memory>
    requires first { T (is_sorted key_cmp first.now) }
    requires second { T (is_sorted key_cmp second.now) }
    requires roots { part_root 0 first.now ≡ part_root 0 second.now }
    ensures { MatchResult result (IsMapsAnswer first.now second.now) (λ _. first.now ≢ second.now) }
{
    let ours = first.as_slice();
    let theirs = second.as_slice();
    if are_same(ours, theirs) {
        return Ok(None);
    }
    know_entries(ours);
    know_entries(theirs);
    let xs = whole_inputs(alloc, ours)?;
    let ys = whole_inputs(alloc, theirs)?;
    match first_difference(alloc, &xs, &ys)? {
        Some(found) => Ok(Some(found)),
        None => unreachable!(),
    }
}

// Whether two lists of entries are the same.
fn are_same(a: &[(Key, Bytes)], b: &[(Key, Bytes)]) -> bool
    ensures { IsTrue result ↔ (a.now ≡ b.now) }
{
    if a.len() != b.len() {
        return false;
    }
    for i in 0..a.len() {
        if !is_same(&a[i], &b[i]) {
            return false;
        }
    }
    true
}

fn is_same(a: &(Key, Bytes), b: &(Key, Bytes)) -> bool
    ensures { IsTrue result ↔ (a.now ≡ b.now) }
{
    a.0 == b.0 && a.1.as_slice() == b.1.as_slice()
}
