// The children of an inner node. A bitmap says at which places there is one, and only those take room.
ghost use Rattle.std.specs.Prelude.{◌≡◌, ℕ, ◌+◌, ◌<◌, ◌≤◌, ◌^◌, ◌++◌, IfOk, List, Option, None, OnOk, Some, [], ◌∷◌, length, map, take, drop, slice_index_or};
ghost use Rattle.std.specs.Option.{is_some, option_copied, SomeIff};
ghost use Rattle.jf_path.specs.Bitmaps.{present};
ghost use Rattle.jf_node.specs.BranchFacts.{is_leaf_child};
ghost use Rattle.jf_node.specs.Children.{entries_of_children};
ghost use Rattle.jf_node.specs.LinkFacts.{IsLinkIf};

use crate::link::{Branches, Link, Sixteen};
use jf_hash::{Hash, Places, empty};
use jf_path::{Bitmap, Memory, Nibble};
use std::alloc::Global;

impl Branches {
    // These children, which are moved.
    pub(crate) fn of(alloc: Global, children: Sixteen) -> Result<Branches, Memory>
        ensures { IfOk result (λ b. b ≡ children) }
    {
        children.know();
        let there = places_of_children(&children);
        let leaves = places_of_leaves(&children);
        let links = packed_links(alloc, children, there.rank(16))?;
        Ok(Branches {
            there,
            leaves,
            links,
        })
    }

    /// The child at a nibble.
    pub fn get(&self, n: Nibble) -> Option<&Link>
        // The result is the child at nibble `n`, or `None` if there is none.
        ensures { option_copied result ≡ slice_index_or self.now n None }
    {
        let place = n.get() as usize;
        self.there.know();
        if self.there.has(place) {
            Some(&self.links[self.there.rank(place)])
        } else {
            None
        }
    }

    /// The child at a place.
    pub fn child_at(&self, place: usize) -> Option<&Link>
        // The place is one of the sixteen, 0 to 15.
        requires { place < 16 }
        // The result is the child at this place, or `None` if there is none.
        ensures { option_copied result ≡ slice_index_or self.now place None }
    {
        self.get(Nibble::of(place as u8))
    }

    /// Ensures what holds of the children of every inner node. Changes nothing.
    pub fn know(&self)
        // There are sixteen places.
        ensures long { length self.now ≡ 16 }
        // What `Link::know` ensures holds of each child that is there.
        ensures links { (i : ℕ) → i < 16 → IsLinkIf (slice_index_or self.now i None) }
    {
        self.there.know();
    }

    // The number of entries of the children at the `width` places from place `start` on, or `None` if it is 2^64 or
    // more.
    pub(crate) fn count_among(&self, start: usize, width: usize) -> Option<u64>
        // The range ends within the sixteen places.
        requires { start + width ≤ 16 }
        // The result is the number of entries in the range, or None if it is 2^64 or more.
        ensures { SomeIff result (length (entries_of_children (take width (drop start self.now))) < 2 ^ 64) (length (entries_of_children (take width (drop start self.now)))) }
    {
        count_all(self.among(start, width))
    }

    // The links to the children at the `width` places from place `start` on.
    pub(crate) fn among(&self, start: usize, width: usize) -> &[Link]
        // The range ends within the sixteen places.
        requires { start + width ≤ 16 }
        // The links have the same entries as the places in the range.
        ensures { entries_of_children (take width (drop start self.now)) ≡ entries_of_children (map Some result.now) }
    {
        let first = self.there.rank(start);
        let many = self.there.count(start, width);
        &self.links[first..first + many]
    }

    /// The same children, which are shared and not copied, so that others may take the place of some.
    pub fn share(&self) -> Result<Sixteen, Memory>
        // After Ok the result has the same children at the same nibbles.
        ensures { IfOk result (λ x. x ≡ self.now) }
    {
        self.know();
        let mut copy = Sixteen::none();
        for n in 0..16u8 {
            let n = Nibble::of(n);
            copy.set(n, share_if(self.get(n))?);
        }
        copy.know();
        Ok(copy)
    }
}

impl Places for Branches {
    ghost use Rattle.std.specs.Prelude.{map};
    ghost use Rattle.jf_node.specs.Children.{child_slot};

    ghost slots = { λ links. map child_slot links };

    fn children(&self) -> Bitmap {
        self.there
    }

    fn leaves(&self) -> Bitmap {
        self.leaves
    }

    fn first_hash(&self, start: usize) -> Hash {
        let first = self.there.rank(start);
        if first < self.links.len() {
            self.links[first].hash()
        } else {
            empty()
        }
    }
}

// Whether there is a child that is a leaf.
fn is_leaf_child(child: &Option<Link>) -> bool
    ensures { result ≡ is_leaf_child child.now }
{
    match child {
        None => false,
        Some(link) => link.count() == 1,
    }
}

// The places at which there is a child.
fn places_of_children(children: &Sixteen) -> Bitmap
    ensures { result ≡ map is_some children.now }
{
    children.know();
    let mut there = Bitmap::none();
    for n in 0..16 {
        there.set(n, children.links[n].is_some());
    }
    there
}

// The places at which the child is a leaf.
fn places_of_leaves(children: &Sixteen) -> Bitmap
    ensures { result ≡ map is_leaf_child children.now }
{
    children.know();
    let mut leaves = Bitmap::none();
    for n in 0..16 {
        leaves.set(n, is_leaf_child(&children.links[n]));
    }
    leaves
}

// The links that are there, without the empty places.
fn packed_links(alloc: Global, children: Sixteen, room: usize) -> Result<Vec<Link>, Memory>
    ensures { IfOk result (λ v. v.items ≡ present children) }
{
    children.know();
    let Sixteen { links } = children;
    let mut links = links;
    let mut out = Vec::with_capacity(alloc, room)?;
    for n in 0..16 {
        let child = links[n].take();
        push_if(&mut out, child)?;
    }
    Ok(out)
}

// Appends the link of a child, if there is one.
fn push_if(out: &mut Vec<Link>, child: Option<Link>) -> Result<(), Memory>
    ensures { OnOk result (out.new.items ≡ out.old.items ++ present (child ∷ [])) }
{
    match child {
        None => Ok(()),
        Some(link) => {
            out.push(link)?;
            Ok(())
        }
    }
}

// The number of entries of these links, or `None` if it is 2^64 or more.
pub(crate) fn count_all(links: &[Link]) -> Option<u64>
    ensures { SomeIff result (length (entries_of_children (map Some links.now)) < 2 ^ 64) (length (entries_of_children (map Some links.now))) }
{
    let mut total: u64 = 0;
    for link in links {
        total = total.checked_add(link.count())?;
    }
    Some(total)
}

fn share_if(child: Option<&Link>) -> Result<Option<Link>, Memory>
    ensures { IfOk result (λ x. x ≡ option_copied child.entry) }
{
    match child {
        None => Ok(None),
        Some(link) => {
            let link = link.share()?;
            Ok(Some(link))
        }
    }
}
