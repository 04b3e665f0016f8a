// The one place of the crate where hashes are computed; each is a step.
ghost use Rattle.std.specs.Prelude.{◌≡◌, ◌+◌, ◌<◌};
ghost use Rattle.jf_evidence.specs.Proofs.{join};
ghost use Rattle.jf_range.specs.Subjects.{subject_hash};

use jf_hash::{Hash, inner, leaf, value};
use jf_path::{Key, bit};
use jf_steps::Steps;
use std::sync::ledger::Ledger;

// What a hash is computed of.
#[derive(Clone, Copy)]
pub(crate) enum Subject<'a> {
    Value(&'a [u8]),
    Leaf(&'a Key, &'a Hash),
    Pair(&'a Hash, &'a Hash),
}

// The one call that computes hashes.
pub(crate) fn hash<L: Ledger>(of: Subject<'_>, steps: &mut Steps<L>) -> Hash
    ensures value { result ≡ subject_hash of.entry }
    ensures cost { steps.new ≡ steps.old + 1 }
{
    steps.tick();
    match of {
        Subject::Value(bytes) => value(bytes),
        Subject::Leaf(key, value_hash) => leaf(key, value_hash),
        Subject::Pair(left, right) => inner(left, right),
    }
}

// A hash and its sibling under bit `i` of the key: at bit 0 the sibling is on the right.
pub(crate) fn join<L: Ledger>(
    key: &Key,
    i: usize,
    below: &Hash,
    sibling: &Hash,
    steps: &mut Steps<L>,
) -> Hash
    requires { i < 256 }
    ensures value { result ≡ join key.now i below.now sibling.now }
    ensures cost { steps.new ≡ steps.old + 1 }
{
    if bit(key, i) {
        hash(Subject::Pair(sibling, below), steps)
    } else {
        hash(Subject::Pair(below, sibling), steps)
    }
}
