// Links are made from an entry, from children, or from an older link.
ghost use Rattle.std.specs.Prelude.{◌≡◌, ◌*◌, ◌<◌, ◌≤◌, ◌+◌, false, length, IfOk};
ghost use Rattle.std.specs.List.{count_by};
ghost use Rattle.std.specs.Option.{option_copied};
ghost use Rattle.jf_path.specs.Limits.{max_value};
ghost use Rattle.jf_hash.specs.Hashes.{L, V};
ghost use Rattle.jf_hash.specs.Ranges.{kept_hashes};
ghost use Rattle.jf_hash.specs.Roots.{part_root};
ghost use Rattle.jf_hash.specs.Slots.{slots_of};
ghost use Rattle.jf_node.specs.Children.{content, entries_of_children, FitFrom, AreChildren, SameElsewhere, leaf_value, inner_value, moved_value, renewed_value};
ghost use Rattle.jf_node.specs.LinkFacts.{BeginAlike};

use crate::link::{Body, Branches, Form, Link, Sixteen};
use crate::view::Seen;
use jf_hash::{Hash, Ranges};
use jf_path::{Bitmap, Key, Memory, Nibble, SharedBytes, know_bytes, know_key};
use jf_steps::Steps;
use std::alloc::Global;
use std::marker::Brand;
use std::sync::Arc;
use std::sync::ledger::{Blank, Ledger};

impl Link {
    /// A leaf of one entry. The caller gives the hash of its value, which isn't hashed again.
    pub fn leaf(
        alloc: Global,
        version: u64,
        depth: u64,
        key: &Key,
        value: &SharedBytes,
        value_hash: &Hash,
    ) -> Result<Link, Memory>
        // The depth is at most 64 nibbles.
        requires depth { depth ≤ 64 }
        // The value has at most 4,096 bytes.
        requires short { length value.now ≤ max_value }
        // `value_hash` is the hash of the value.
        requires hashed { value_hash.now ≡ V value.now }
        // After Ok the result has this version, this depth and this one entry, and its only node has this version.
        ensures { IfOk result (λ x. x ≡ leaf_value version depth key.now value.now) }
    {
        let hash = jf_hash::leaf(key, value_hash);
        Link::hashed_leaf(alloc, version, depth, key, value, value_hash, hash)
    }

    // A leaf whose own hash is given too.
    fn hashed_leaf(
        alloc: Global,
        version: u64,
        depth: u64,
        key: &Key,
        value: &SharedBytes,
        value_hash: &Hash,
        hash: Hash,
    ) -> Result<Link, Memory>
        requires depth { depth ≤ 64 }
        requires short { length value.now ≤ max_value }
        requires hashed { value_hash.now ≡ V value.now }
        requires hash { hash ≡ L key.now value_hash.now }
        ensures { IfOk result (λ x. x ≡ leaf_value version depth key.now value.now) }
    {
        know_key(key);
        know_bytes(value.as_slice());
        let value = value.share()?;
        let node = Arc::new(
            alloc,
            Body {
                version,
                hash,
                form: Form::Leaf {
                    depth: depth as u8,
                    key: *key,
                    value_hash: *value_hash,
                    value,
                },
            },
        )?;
        Ok(Link { node })
    }

    /// An inner node over children one nibble deeper, each at its own nibble, with two entries or more. `Memory` also
    /// means that there are 2^64 entries or more.
    pub fn inner(alloc: Global, version: u64, depth: u64, children: Sixteen) -> Result<Link, Memory>
        // The depth is below 64 nibbles.
        requires depth { depth < 64 }
        // Each child is one nibble deeper, and its keys have the nibble of its place at this depth.
        requires children { FitFrom depth 0 children }
        // The children have two entries or more.
        requires plural { 2 ≤ length (entries_of_children children) }
        // All keys agree in their first `depth` nibbles.
        requires alike { BeginAlike depth (entries_of_children children) }
        // After Ok the result has this version and depth and the children's entries; nodes below keep their versions.
        ensures { IfOk result (λ x. x ≡ inner_value version depth children) }
    {
        Link::inner_uncounted::<Brand>(alloc, version, depth, children, Blank::new(1))
    }

    /// The node that `inner` returns, with the pairs counted that are hashed for it: one for each range that holds more
    /// than one leaf.
    pub fn inner_counted<L: Ledger>(
        alloc: Global,
        version: u64,
        depth: u64,
        children: Sixteen,
        steps: &mut Steps<L>,
    ) -> Result<Link, Memory>
        // The depth is below 64 nibbles.
        requires depth { depth < 64 }
        // Each child is one nibble deeper, and its keys have the nibble of its place at this depth.
        requires children { FitFrom depth 0 children }
        // The children have two entries or more.
        requires plural { 2 ≤ length (entries_of_children children) }
        // All keys agree in their first `depth` nibbles.
        requires alike { BeginAlike depth (entries_of_children children) }
        // After Ok the result has this version and depth and the children's entries; nodes below keep their versions.
        ensures link { IfOk result (λ x. x ≡ inner_value version depth children) }
        // The new count of steps is at most 15 above the old one, also after Err.
        ensures cost { steps.new ≤ steps.old + 15 }
    {
        children.know();
        let count = children.count().ok_or(Memory)?;
        let children = Branches::of(alloc, children)?;
        let (ranges, hash) = Ranges::of_counted(alloc, &children, steps)?;
        Link::over(alloc, version, depth, children, ranges, hash, count)
    }

    // The inner node, with the pairs counted in a ledger of their own.
    fn inner_uncounted<L: Ledger>(
        alloc: Global,
        version: u64,
        depth: u64,
        children: Sixteen,
        blank: Blank,
    ) -> Result<Link, Memory>
        requires name { blank.name ≡ L.name }
        requires parts { blank.parts ≡ L.parts }
        requires positive { 0 < blank.parts }
        requires depth { depth < 64 }
        requires children { FitFrom depth 0 children }
        requires plural { 2 ≤ length (entries_of_children children) }
        requires alike { BeginAlike depth (entries_of_children children) }
        ensures { IfOk result (λ x. x ≡ inner_value version depth children) }
    {
        let mut steps = Steps::<L>::new(blank);
        Link::inner_counted(alloc, version, depth, children, &mut steps)
    }

    /// The inner node over new children, of which only those in `changed` may have other entries than this node's. Only
    /// ranges with a changed child are hashed.
    pub fn with_children(
        &self,
        alloc: Global,
        version: u64,
        children: Sixteen,
        changed: Bitmap,
    ) -> Result<Link, Memory>
        // This node has two entries or more: it is an inner node.
        requires inner { 2 ≤ length self.now.entries }
        // At this node's depth the keys of each child have the nibble of its place; the child is one nibble deeper.
        requires children { FitFrom self.now.depth 0 children }
        // The new children have two entries or more.
        requires plural { 2 ≤ length (entries_of_children children) }
        // All keys of the new children agree in as many first nibbles as this node is deep.
        requires alike { BeginAlike self.now.depth (entries_of_children children) }
        // At each nibble that isn't in `changed` the new children have the same entries as this node.
        requires elsewhere { SameElsewhere changed self.now.depth self.now.entries (entries_of_children children) }
        // After Ok the result has `version`, this node's depth and the new entries; nodes below keep their versions.
        ensures { IfOk result (λ x. x ≡ inner_value version self.now.depth children) }
    {
        self.with_children_uncounted::<Brand>(alloc, version, children, changed, Blank::new(1))
    }

    /// The node that `with_children` returns, with the pairs counted that are hashed for it: one for each range with a
    /// changed child that holds more than one leaf.
    pub fn with_children_counted<L: Ledger>(
        &self,
        alloc: Global,
        version: u64,
        children: Sixteen,
        changed: Bitmap,
        steps: &mut Steps<L>,
    ) -> Result<Link, Memory>
        // This node has two entries or more: it is an inner node.
        requires inner { 2 ≤ length self.now.entries }
        // At this node's depth the keys of each child have the nibble of its place; the child is one nibble deeper.
        requires children { FitFrom self.now.depth 0 children }
        // The new children have two entries or more.
        requires plural { 2 ≤ length (entries_of_children children) }
        // All keys of the new children agree in as many first nibbles as this node is deep.
        requires alike { BeginAlike self.now.depth (entries_of_children children) }
        // At each nibble that isn't in `changed` the new children have the same entries as this node.
        requires elsewhere { SameElsewhere changed self.now.depth self.now.entries (entries_of_children children) }
        // After Ok the result has `version`, this node's depth and the new entries; nodes below keep their versions.
        ensures link { IfOk result (λ x. x ≡ inner_value version self.now.depth children) }
        // The new count of steps is at most the old one and four for each place in `changed`, also after Err.
        ensures cost { steps.new ≤ steps.old + 4 * count_by (λ bit. bit) changed }
    {
        self.know();
        children.know();
        changed.know();
        let count = self.recount(&children, changed)?;
        let children = Branches::of(alloc, children)?;
        let (ranges, hash) = self
            .ranges()
            .updated_counted(alloc, &self.hash(), &children, changed, steps)?;
        Link::over(alloc, version, self.depth(), children, ranges, hash, count)
    }

    // The node over new children, with the pairs counted in a ledger of their own.
    fn with_children_uncounted<L: Ledger>(
        &self,
        alloc: Global,
        version: u64,
        children: Sixteen,
        changed: Bitmap,
        blank: Blank,
    ) -> Result<Link, Memory>
        requires name { blank.name ≡ L.name }
        requires parts { blank.parts ≡ L.parts }
        requires positive { 0 < blank.parts }
        requires inner { 2 ≤ length self.now.entries }
        requires children { FitFrom self.now.depth 0 children }
        requires plural { 2 ≤ length (entries_of_children children) }
        requires alike { BeginAlike self.now.depth (entries_of_children children) }
        requires elsewhere { SameElsewhere changed self.now.depth self.now.entries (entries_of_children children) }
        ensures { IfOk result (λ x. x ≡ inner_value version self.now.depth children) }
    {
        let mut steps = Steps::<L>::new(blank);
        self.with_children_counted(alloc, version, children, changed, &mut steps)
    }

    // The number of entries of new children, of which only those in `changed` may have other entries than this node's.
    // Only those are looked at.
    fn recount(&self, children: &Sixteen, changed: Bitmap) -> Result<u64, Memory>
        requires inner { 2 ≤ length self.now.entries }
        requires children { FitFrom self.now.depth 0 children.now }
        requires elsewhere { SameElsewhere changed self.now.depth self.now.entries (entries_of_children children.now) }
        ensures { IfOk result (λ n. n ≡ length (entries_of_children children.now)) }
    {
        match self.view() {
            Seen::Leaf { .. } => unreachable!(),
            Seen::Inner { children: old } => {
                children.know();
                let mut total = self.count();
                for n in 0..16u8 {
                    let n = Nibble::of(n);
                    let change = changed.has(n.get() as usize);
                    total = count_after_change(total, change, old.get(n), children.get(n))?;
                }
                Ok(total)
            }
        }
    }

    // An inner node over its children. Given are the hashes of their ranges, its own hash, and the number of their entries.
    fn over(
        alloc: Global,
        version: u64,
        depth: u64,
        children: Branches,
        ranges: Ranges,
        hash: Hash,
        count: u64,
    ) -> Result<Link, Memory>
        requires children { AreChildren depth children }
        requires alike { BeginAlike depth (entries_of_children children) }
        requires hashed { ranges ≡ kept_hashes (slots_of depth (entries_of_children children)) }
        requires topped { hash ≡ part_root (4 * depth) (entries_of_children children) }
        requires counted { count ≡ length (entries_of_children children) }
        ensures { IfOk result (λ x. x ≡ inner_value version depth children) }
    {
        children.know();
        let node = Arc::new(
            alloc,
            Body {
                version,
                hash,
                form: Form::Inner {
                    depth: depth as u8,
                    children,
                    ranges,
                    count,
                },
            },
        )?;
        Ok(Link { node })
    }

    /// A leaf at another depth and of another version. Nothing is hashed.
    pub fn at(&self, alloc: Global, version: u64, depth: u64) -> Result<Link, Memory>
        // The node has one entry: it is a leaf.
        requires single { length self.now.entries ≡ 1 }
        // The new depth is at most 64 nibbles.
        requires depth { depth ≤ 64 }
        // After Ok the result has the new version and depth and the same entry, and its only node has the new version.
        ensures { IfOk result (λ x. x ≡ moved_value version depth self.now) }
    {
        match self.view() {
            Seen::Leaf {
                key,
                value_hash,
                ..
            } => {
                let value = self.shared_value();
                Link::hashed_leaf(alloc, version, depth, key, value, value_hash, self.hash())
            }
            Seen::Inner { .. } => unreachable!(),
        }
    }

    /// This node written anew by another version. Nothing is hashed.
    pub fn renewed_link(&self, alloc: Global, version: u64) -> Result<Link, Memory>
        // After Ok the result has the new version and the same depth and entries; nodes below keep their versions.
        ensures { IfOk result (λ x. x ≡ renewed_value version self.now) }
    {
        match self.view() {
            Seen::Leaf { .. } => self.at(alloc, version, self.depth()),
            Seen::Inner { children } => {
                let children = Branches::of(alloc, children.share()?)?;
                let ranges = self.ranges().copy(alloc)?;
                Link::over(
                    alloc,
                    version,
                    self.depth(),
                    children,
                    ranges,
                    self.hash(),
                    self.count(),
                )
            }
        }
    }
}

// The number of entries of an optional child.
fn count_of(child: Option<&Link>) -> u64
    ensures { result ≡ length (content (option_copied child.entry)) }
{
    match child {
        None => 0,
        Some(link) => link.count(),
    }
}

// A number of entries after one child took the place of another. The children are looked at only if they may differ.
fn count_after_change(
    total: u64,
    changed: bool,
    old: Option<&Link>,
    new: Option<&Link>,
) -> Result<u64, Memory>
    requires part { length (content (option_copied old)) ≤ total }
    requires unchanged { changed ≡ false → content (option_copied old) ≡ content (option_copied new) }
    ensures { IfOk result (λ n. n + length (content (option_copied old.entry)) ≡ total + length (content (option_copied new.entry))) }
{
    if !changed {
        return Ok(total);
    }
    let rest = total - count_of(old);
    rest.checked_add(count_of(new)).ok_or(Memory)
}
