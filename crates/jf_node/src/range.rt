// Nodes of the binary tree, seen inside stored nodes.
ghost use Rattle.std.specs.Prelude.{◌≡◌, ℕ, ◌+◌, ◌-◌, ◌*◌, ◌%◌, ◌^◌, ◌<◌, ◌≤◌, [], length, cond, IfOk};
ghost use Rattle.std.specs.Option.{option_copied};
ghost use Rattle.std.specs.FinMap.{find};
ghost use Rattle.jf_path.specs.Keys.{key_cmp};
ghost use Rattle.jf_hash.specs.Roots.{part_root, zeros, ones};
ghost use Rattle.jf_hash.specs.Ranges.{in_range, lies_in};
ghost use Rattle.jf_node.specs.Placed.{ArePlaces};
ghost use Rattle.jf_node.specs.RangeFacts.{IsRangeValue};
ghost use Rattle.jf_node.specs.RangeStates.{IsRangeState};
ghost use Rattle.jf_node.specs.SharedPlaces.{IsSharedAs};

use crate::found::Found;
use crate::link::Link;
use crate::shared::{SharedPlace, SharedRange};
use crate::state::RangeState;
use crate::view::Seen;
use jf_hash::Hash;
use jf_path::{Key, Memory, bit, nibble};
use std::marker::Model;

// Where the entries of a range stand: nowhere, in a leaf, or, two or more, at 2^`level` places of an inner node from
// place `start` on.
#[derive(Clone, Copy)]
pub(crate) enum RangePlace<'a> {
    Nowhere,
    Leaf(&'a Link),
    Places {
        link: &'a Link,
        start: usize,
        level: usize,
    },
}

impl<'a> RangePlace<'a> {
    // The same place, kept with its stored node.
    fn share(self) -> Result<SharedPlace, Memory>
        ensures { IfOk result (λ p. IsSharedAs p self.entry) }
    {
        match self {
            RangePlace::Nowhere => Ok(SharedPlace::Nowhere),
            RangePlace::Leaf(link) => {
                let link = link.share()?;
                Ok(SharedPlace::Leaf(link))
            }
            RangePlace::Places { link, start, level } => {
                let link = link.share()?;
                Ok(SharedPlace::Places { link, start, level })
            }
        }
    }
}

/// A node of the binary tree, seen inside a stored node: the entries whose keys begin with some bits. A stored inner
/// node has fifteen of them, one for each range of two places or more. A range of one place is the top of the child
/// there.
#[derive(Drop)]
pub struct Range<'a> {
    pub(crate) depth: u64,
    pub(crate) place: RangePlace<'a>,
}

impl<'a> Model for Range<'a> {
    ghost use Rattle.jf_node.specs.RangeValue.{RangeValue};

    ghost Value = { RangeValue };

    ghost use Rattle.jf_node.specs.Placed.{range_value, IsPlaced};

    ghost view = { λ r. range_value r.depth r.place };

    ghost invariant = { λ r. IsPlaced r.depth r.place };
}

// The number of places of a range.
fn width(level: usize) -> usize
    requires { level ≤ 4 }
    ensures { result ≡ 2 ^ level }
{
    1 << level
}

// Whether a place lies in a range.
fn lies_in(start: usize, width: usize, place: usize) -> bool
    requires { start + width ≤ 16 }
    ensures { result ≡ lies_in start width place }
{
    start <= place && place < start + width
}

// Bit `depth` of the key of a leaf, which says in which half its entry is.
fn leaf_bit(link: &Link, depth: u64) -> bool
    requires single { length link.now.entries ≡ 1 }
    requires depth { depth < 256 }
    ensures zeros { zeros depth link.now.entries ≡ cond result [] link.now.entries }
    ensures ones { ones depth link.now.entries ≡ cond result link.now.entries [] }
{
    match link.view() {
        Seen::Leaf { key, .. } => bit(key, depth as usize),
        Seen::Inner { .. } => unreachable!(),
    }
}

impl<'a> Range<'a> {
    /// A node without entries.
    pub fn empty(depth: u64) -> Range<'a>
        // The depth is at most 256.
        requires { depth ≤ 256 }
        // The result has this depth and no entry.
        ensures { result ≡ record { depth = depth; entries = [] } }
    {
        Range {
            depth,
            place: RangePlace::Nowhere,
        }
    }

    // The node of a leaf's entry.
    fn leaf(depth: u64, link: &'a Link) -> Range<'a>
        requires single { length link.now.entries ≡ 1 }
        requires depth { depth ≤ 256 }
        ensures { result ≡ record { depth = depth; entries = link.now.entries } }
    {
        Range {
            depth,
            place: RangePlace::Leaf(link),
        }
    }

    // The node of the entries that stand at 2^`level` places of an inner node, two entries or more.
    fn places(depth: u64, link: &'a Link, start: usize, level: usize) -> Range<'a>
        requires { ArePlaces depth link.now start level }
        ensures { result ≡ record { depth = depth; entries = in_range link.now.depth start (2 ^ level) link.now.entries } }
    {
        Range {
            depth,
            place: RangePlace::Places { link, start, level },
        }
    }

    /// The entries of a stored node, at four times its depth.
    pub fn of(link: &'a Link) -> Range<'a>
        // The result has the entries of the node, at four times its depth.
        ensures { result ≡ record { depth = 4 * link.now.depth; entries = link.now.entries } }
    {
        link.know();
        let depth = 4 * link.depth();
        if link.count() == 1 {
            Range::leaf(depth, link)
        } else {
            Range::places(depth, link, 0, 4)
        }
    }

    // The node of the entries that stand at 2^`level` places of an inner node, from place `start` on.
    fn among(link: &'a Link, start: usize, level: usize) -> Range<'a>
        requires inner { 2 ≤ length link.now.entries }
        requires level { level ≤ 4 }
        requires aligned { start % 2 ^ level ≡ 0 }
        requires within { start < 16 }
        ensures { result ≡ record { depth = 4 * link.now.depth + (4 - level); entries = in_range link.now.depth start (2 ^ level) link.now.entries } }
    {
        link.know();
        match link.view() {
            Seen::Leaf { .. } => unreachable!(),
            Seen::Inner { children } => {
                let depth = 4 * link.depth() + (4 - level as u64);
                if level == 0 {
                    match children.child_at(start) {
                        None => Range::empty(depth),
                        Some(child) => Range::of(child),
                    }
                } else {
                    match Found::at(children, start, width(level)) {
                        Found::Nothing => Range::empty(depth),
                        Found::Leaf(child) => Range::leaf(depth, child),
                        Found::More => Range::places(depth, link, start, level),
                    }
                }
            }
        }
    }

    /// Ensures what holds of every range. Changes nothing.
    pub fn know(&self)
        // Under 2^64 keys of 32 bytes rise and agree in `depth` bits, 256 at most, or 255 if several; values have 4,096 at most.
        ensures { IsRangeValue self.now }
    {
        match self.place {
            RangePlace::Nowhere => {}
            RangePlace::Leaf(link) => link.know(),
            RangePlace::Places { link, .. } => link.know(),
        }
    }

    /// How many leading bits, 0 to 256, say which keys belong here.
    pub fn depth(&self) -> u64
        // The result is the depth of the range.
        ensures { result ≡ self.now.depth }
    {
        self.depth
    }

    /// What it holds: no entry, one, or more.
    pub fn state(&self) -> RangeState<'a>
        // The result is `Empty` for no entry, `Leaf` for one, with the hash of its value, or `More` for two or more.
        ensures entries { IsRangeState self.now.entries result }
        // With two entries or more the depth is below 256: there is a next bit.
        ensures depth { 2 ≤ length self.now.entries → self.now.depth < 256 }
    {
        match self.place {
            RangePlace::Nowhere => RangeState::Empty,
            RangePlace::Leaf(link) => match link.view() {
                Seen::Leaf {
                    key,
                    value,
                    value_hash,
                } => RangeState::Leaf {
                    key,
                    value,
                    value_hash,
                },
                Seen::Inner { .. } => unreachable!(),
            },
            RangePlace::Places { .. } => RangeState::More,
        }
    }

    /// Its hash. Nothing is hashed.
    pub fn hash(&self) -> Hash
        // The result is the root of the entries at this depth.
        ensures { result ≡ part_root self.now.depth self.now.entries }
    {
        match self.place {
            RangePlace::Nowhere => jf_hash::empty(),
            RangePlace::Leaf(link) => link.hash(),
            RangePlace::Places { link, start, level } => link.range_hash(start, width(level)),
        }
    }

    /// Its half of the entries whose next bit is 0.
    pub fn zeros(&self) -> Range<'a>
        // The depth is below 256: there is a next bit.
        requires { self.now.depth < 256 }
        // The result is one bit deeper, and has the entries whose key has 0 at bit `depth`.
        ensures { result ≡ record { depth = self.now.depth + 1; entries = zeros self.now.depth self.now.entries } }
    {
        match self.place {
            RangePlace::Nowhere => Range::empty(self.depth + 1),
            RangePlace::Leaf(link) => {
                if leaf_bit(link, self.depth) {
                    Range::empty(self.depth + 1)
                } else {
                    Range::leaf(self.depth + 1, link)
                }
            }
            RangePlace::Places { link, start, level } => Range::among(link, start, level - 1),
        }
    }

    /// Its half of the entries whose next bit is 1.
    pub fn ones(&self) -> Range<'a>
        // The depth is below 256: there is a next bit.
        requires { self.now.depth < 256 }
        // The result is one bit deeper, and has the entries whose key has 1 at bit `depth`.
        ensures { result ≡ record { depth = self.now.depth + 1; entries = ones self.now.depth self.now.entries } }
    {
        match self.place {
            RangePlace::Nowhere => Range::empty(self.depth + 1),
            RangePlace::Leaf(link) => {
                if leaf_bit(link, self.depth) {
                    Range::leaf(self.depth + 1, link)
                } else {
                    Range::empty(self.depth + 1)
                }
            }
            RangePlace::Places { link, start, level } => {
                Range::among(link, start + width(level - 1), level - 1)
            }
        }
    }

    /// Both halves: first the entries whose next bit is 0, then those where it is 1.
    pub fn halves(&self) -> (Range<'a>, Range<'a>)
        // The depth is below 256: there is a next bit.
        requires { self.now.depth < 256 }
        // The first half is one bit deeper, and has the entries whose key has 0 at bit `depth`.
        ensures zeros { result.0 ≡ record { depth = self.now.depth + 1; entries = zeros self.now.depth self.now.entries } }
        // The second half is one bit deeper, and has the entries whose key has 1 at bit `depth`.
        ensures ones { result.1 ≡ record { depth = self.now.depth + 1; entries = ones self.now.depth self.now.entries } }
    {
        (self.zeros(), self.ones())
    }

    /// The number of its entries.
    pub fn count(&self) -> u64
        // The result is the number of entries of the range.
        ensures { result ≡ length self.now.entries }
    {
        match self.place {
            RangePlace::Nowhere => 0,
            RangePlace::Leaf(_) => 1,
            RangePlace::Places { link, start, level } => match link.view() {
                Seen::Leaf { .. } => unreachable!(),
                Seen::Inner { children } => match children.count_among(start, width(level)) {
                    Some(count) => count,
                    None => unreachable!(),
                },
            },
        }
    }

    /// The same node, kept with the stored node in which it is seen.
    pub fn share(&self) -> Result<SharedRange, Memory>
        // After Ok the result has the same depth and entries.
        ensures { IfOk result (λ x. x ≡ self.now) }
    {
        let place = self.place.share()?;
        Ok(SharedRange {
            depth: self.depth,
            place,
        })
    }

    /// The value of a key, or `None` if no entry has it.
    pub fn get(&self, key: &Key) -> Option<&'a [u8]>
        // The result is the value of the entry with this key, or None if there is none.
        ensures { option_copied result ≡ find key_cmp key.now self.now.entries }
    {
        match self.place {
            RangePlace::Nowhere => None,
            RangePlace::Leaf(link) => link.get(key),
            RangePlace::Places { link, start, level } => {
                let n = nibble(key, link.depth() as usize).get() as usize;
                if lies_in(start, width(level), n) {
                    link.get(key)
                } else {
                    None
                }
            }
        }
    }
}
