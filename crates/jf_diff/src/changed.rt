// Below which nibbles of the top a landing wrote or made stale nodes.
ghost use Rattle.std.specs.Prelude.{◌≡◌, ◌↔◌, ℕ, IsTrue, Option};
ghost use Rattle.std.specs.Option.{option_copied};
ghost use Rattle.jf_model.specs.Nodes.{Path};
ghost use Rattle.jf_node.specs.Children.{content};
ghost use Rattle.jf_diff.specs.Changed.{ChangesBelow, ChangesSeveral};
ghost use Rattle.jf_diff.specs.OptionalNodes.{IsAtDepth};
ghost use Rattle.jf_diff.specs.Tops.{IsFreshUnder};

use crate::child::child_in;
use jf_node::Link;
use jf_path::Nibble;

/// Whether the landing of `version` wrote or made stale a node below this nibble.
fn is_changed(old: Option<&Link>, top: Option<&Link>, version: u64, n: Nibble) -> bool
    requires old { IsAtDepth 0 (option_copied old) }
    requires top { IsAtDepth 0 (option_copied top) }
    requires landed { (before : Path → Option ℕ) × IsFreshUnder version (content (option_copied old)) before (option_copied top) }
    ensures { IsTrue result ↔ ChangesBelow (content (option_copied old.entry)) (content (option_copied top.entry)) n }
{
    match child_in(top, n) {
        None => child_in(old, n).is_some(),
        Some(child) => {
            child.know();
            child.version() == version
        }
    }
}

/// Whether the landing of `version` wrote or made stale nodes below more than one nibble.
pub(crate) fn are_several(old: Option<&Link>, top: Option<&Link>, version: u64) -> bool
    requires old { IsAtDepth 0 (option_copied old) }
    requires top { IsAtDepth 0 (option_copied top) }
    requires landed { (before : Path → Option ℕ) × IsFreshUnder version (content (option_copied old)) before (option_copied top) }
    ensures { IsTrue result ↔ ChangesSeveral (content (option_copied old.entry)) (content (option_copied top.entry)) }
{
    let mut found = false;
    for n in 0..16 {
        if is_changed(old, top, version, Nibble::of(n)) {
            if found {
                return true;
            }
            found = true;
        }
    }
    false
}
