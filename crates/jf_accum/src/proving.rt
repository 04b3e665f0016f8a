// The totals beside the way to a hash, and those that lead from the first hashes to all. The way goes down from the
// whole into one part after another; the total beside each step is added on the way back.
ghost use Rattle.std.specs.Prelude.{◌≡◌, ◌<◌, ◌≤◌, ◌++◌, true, false, length, OnOk};
ghost use Rattle.jf_accum.specs.Members.{member};
ghost use Rattle.jf_accum.specs.Extensions.{extension_in};

use crate::parts::left_count;
use crate::subtree::Subtree;
use jf_path::{HashList, Memory};

// Adds the path of the hash at a place.
pub(crate) fn push_member(tree: &Subtree<'_>, index: u64, path: &mut HashList) -> Result<(), Memory>
    requires { index < length tree.now }
    ensures { OnOk result (path.new ≡ path.old ++ member tree.now index) }
{
    if tree.len() == 1 {
        return Ok(());
    }
    let k = left_count(tree.len());
    if index < k {
        push_member(&tree.left(), index, path)?;
        path.push(tree.right().total())
    } else {
        push_member(&tree.right(), index - k, path)?;
        path.push(tree.left().total())
    }
}

// Adds the extension from the first `old` hashes, whose total is known.
pub(crate) fn push_extension(
    tree: &Subtree<'_>,
    old: u64,
    path: &mut HashList,
) -> Result<(), Memory>
    requires positive { 0 < old }
    requires within { old ≤ length tree.now }
    ensures { OnOk result (path.new ≡ path.old ++ extension_in tree.now old true) }
{
    if old == tree.len() {
        return Ok(());
    }
    let k = left_count(tree.len());
    if old <= k {
        push_extension(&tree.left(), old, path)?;
        path.push(tree.right().total())
    } else {
        push_rest(&tree.right(), old - k, path)?;
        path.push(tree.left().total())
    }
}

// Adds the extension from the first `old` hashes of a part, whose total isn't known.
fn push_rest(tree: &Subtree<'_>, old: u64, path: &mut HashList) -> Result<(), Memory>
    requires positive { 0 < old }
    requires within { old ≤ length tree.now }
    ensures { OnOk result (path.new ≡ path.old ++ extension_in tree.now old false) }
{
    if old == tree.len() {
        return path.push(tree.total());
    }
    let k = left_count(tree.len());
    if old <= k {
        push_rest(&tree.left(), old, path)?;
        path.push(tree.right().total())
    } else {
        push_rest(&tree.right(), old - k, path)?;
        path.push(tree.left().total())
    }
}
