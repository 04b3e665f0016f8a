// A bit for each of the sixteen places of a node.
ghost use Rattle.std.specs.Prelude.{◌≡◌, ◌+◌, ◌<◌, ◌≤◌, true, false, length, replicate, take, drop, slice_index_or, slice_set};
ghost use Rattle.std.specs.List.{count_by};

use std::marker::Model;

/// Sixteen bits, one for each place of a node, the lowest for place 0.
#[derive(Clone, Copy, Debug, PartialEq, Eq)]
pub struct Bitmap {
    bits: u16,
}

impl Model for Bitmap {
    ghost use Rattle.std.specs.Prelude.{List, Bool, ◌<◌, ◌^◌};
    ghost use Rattle.std.specs.Simd.Lanes.{mask_l};
    ghost use Rattle.jf_path.specs.Bitmaps.{bits_of, bits_again};

    ghost Value = { List Bool };

    ghost view = { λ m. bits_of 16 m.bits };

    ghost invariant = { λ m. m.bits < 2 ^ 16 };

    ghost inverse = { λ bits. record { bits = mask_l bits } };

    ghost inverse_ok = { λ m small. bits_again (λ n. record { bits = n }) m.bits small };
}

impl Bitmap {
    /// No bit set.
    #[tactic(auto, unfolding(crate::specs::Bitmaps::bits_of))]
    pub fn none() -> Bitmap
        // The result has sixteen bits, none of them set.
        ensures { result ≡ replicate 16 false }
    {
        Bitmap { bits: 0 }
    }

    /// All bits set.
    #[tactic(auto, unfolding(crate::specs::Bitmaps::bits_of))]
    pub fn all() -> Bitmap
        // The result has sixteen bits, all of them set.
        ensures { result ≡ replicate 16 true }
    {
        Bitmap { bits: u16::MAX }
    }

    /// Changes nothing, and tells that there are sixteen bits.
    pub fn know(&self)
        // There are sixteen bits.
        ensures { length self.now ≡ 16 }
    {
        let _ = &self.bits;
    }

    /// Whether the bit of a place is set.
    pub fn has(self, place: usize) -> bool
        // The place is one of the sixteen.
        requires { place < 16 }
        // The result is the bit of the place.
        ensures { result ≡ slice_index_or self place false }
    {
        self.bits >> place & 1 == 1
    }

    /// Sets the bit of a place, or clears it.
    pub fn set(&mut self, place: usize, on: bool)
        // The place is one of the sixteen.
        requires { place < 16 }
        // The bit of the place is `on` now, and the other bits are unchanged.
        ensures { self.new ≡ slice_set self.old place on }
    {
        let bit = 1u16 << place;
        if on {
            self.bits |= bit;
        } else {
            self.bits &= !bit;
        }
    }

    /// How many bits are set before a place.
    pub fn rank(self, place: usize) -> usize
        // The place is one of the sixteen, or the end after them.
        requires { place ≤ 16 }
        // The result is the number of bits that are set before the place.
        ensures { result ≡ count_by (λ bit. bit) (take place self) }
    {
        let before = (1u32 << place) - 1;
        (self.bits as u32 & before).count_ones() as usize
    }

    /// How many bits are set among `width` places from place `start` on.
    pub fn count(self, start: usize, width: usize) -> usize
        // The range ends within the sixteen places.
        requires { start + width ≤ 16 }
        // The result is the number of bits that are set in the range.
        ensures { result ≡ count_by (λ bit. bit) (take width (drop start self)) }
    {
        let range = (1u32 << width) - 1;
        (self.bits as u32 >> start & range).count_ones() as usize
    }
}
