// The names of stale nodes are listed by path, and sorted by version and path.
ghost use Rattle.std.specs.List.{IsDistinct};
ghost use Rattle.std.specs.List.Sorted.{IsPermutation};
ghost use Rattle.std.specs.Ordering.{eq_by_cmp};
ghost use Rattle.jf_path.specs.Names.{name_cmp};

use jf_path::{NameList, NodeName};

/// The names, which are distinct, sorted.
pub(crate) fn sorted_names(mut names: Vec<NodeName>) -> NameList
    requires { IsDistinct (eq_by_cmp name_cmp) names.items }
    ensures { IsPermutation names.items result }
{
    names.sort_unstable();
    NameList::of(names)
}
