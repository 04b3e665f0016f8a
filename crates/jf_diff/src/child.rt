// The child of a node at a nibble, and whether a node was there before a landing.
ghost use Rattle.std.specs.Prelude.{◌≡◌};
ghost use Rattle.std.specs.Option.{option_copied};
ghost use Rattle.jf_diff.specs.Below.{IsBelow, IsBelowIf, TellsIfOlder};

use jf_node::{Link, Seen};
use jf_path::Nibble;

/// The child of a node at nibble `n`, if there is one.
pub fn child_of(link: &Link, n: Nibble) -> Option<&Link>
    ensures { IsBelow link.now n (option_copied result) }
{
    match link.view() {
        Seen::Leaf { .. } => None,
        Seen::Inner { children } => {
            children.know();
            children.get(n)
        }
    }
}

/// The child of an optional node at nibble `n`, if there is one.
pub fn child_in(node: Option<&Link>, n: Nibble) -> Option<&Link>
    ensures { IsBelowIf (option_copied node.entry) n (option_copied result) }
{
    match node {
        None => None,
        Some(link) => child_of(link, n),
    }
}

/// Whether there is a node, and it was there before the landing of `version`.
pub fn is_kept(node: Option<&Link>, version: u64) -> bool
    ensures { TellsIfOlder (option_copied node.entry) version result }
{
    match node {
        None => false,
        Some(link) => {
            link.know();
            link.version() != version
        }
    }
}
