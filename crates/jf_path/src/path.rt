// A path is the way from the root to a node, one nibble a step. Its bytes are those of docs/FORMATS.md, Names and nodes
// in bytes.
ghost use Rattle.std.specs.Prelude.{◌≡◌, [], ◌∷◌, ◌++◌, ◌+◌, ◌*◌, ◌/◌, ◌%◌, ◌<◌, ◌≤◌, ◌==◌, List, ℕ, length, drop, take, slice_index, IfOk, Ok};
ghost use Rattle.std.specs.List.{starts_with};
ghost use Rattle.std.specs.Result.{result_err};
ghost use Rattle.jf_path.specs.Paths.{IsPath, key_path, path_bytes, path_fault, halves};

use crate::fault::PathFault;
use crate::key::Key;
use crate::laws::know_key;
use crate::nibbles::Nibble;
use std::cmp::Ordering;
use std::marker::Model;

// The most nibbles of a path: as many as a key has.
const MAX_NIBBLES: u8 = 64;

/// The way from the root to a node: at most 64 nibbles. Paths have the order of lists of nibbles.
#[derive(Clone, Copy, Debug)]
pub struct NibblePath {
    // Two nibbles to a byte, the first in the high half, and zeros after them. So a name takes 48 bytes.
    nibbles: [u8; 32],
    count: u8,
}

impl Model for NibblePath {
    ghost use Rattle.std.specs.Prelude.{List, ℕ, ◌-◌, ◌++◌, take, length, replicate};
    ghost use Rattle.jf_path.specs.Paths.{halves, packed_nibbles};
    ghost use Rattle.jf_path.specs.PackedPath.{ArePackedNibbles, kept_again};

    ghost Value = { List ℕ };

    ghost view = { λ p. take p.count (halves p.nibbles) };

    ghost invariant = { λ p. ArePackedNibbles p.count p.nibbles };

    ghost inverse = { λ p. record { nibbles = packed_nibbles (p ++ replicate (64 - length p) 0); count = length p } };

    ghost inverse_ok = { λ p h. kept_again (λ bytes count. record { nibbles = bytes; count = count }) p.count p.nibbles h };
}

impl NibblePath {
    /// The empty path, which is the root's.
    pub fn empty() -> NibblePath
        // The result has no nibbles.
        ensures { result ≡ [] }
    {
        NibblePath {
            nibbles: [0; 32],
            count: 0,
        }
    }

    /// All 64 nibbles of a key.
    pub fn of_key(key: &Key) -> NibblePath
        // The result has all 64 nibbles of the key, in their order.
        ensures { result ≡ key_path key.now }
    {
        know_key(key);
        NibblePath {
            nibbles: *key,
            count: MAX_NIBBLES,
        }
    }

    /// The number of nibbles.
    pub fn len(&self) -> usize
        // The result is the number of nibbles.
        ensures value { result ≡ length self.now }
        // There are at most 64 nibbles, each below 16.
        ensures path { IsPath self.now }
    {
        self.count as usize
    }

    /// Nibble `i`, from 0.
    pub fn at(&self, i: usize) -> Nibble
        // The path has a nibble `i`.
        requires { i < length self.now }
        // The result is nibble `i` of the path.
        ensures { result ≡ slice_index self.now i }
    {
        Nibble::half(&self.nibbles, i)
    }

    /// Adds a nibble at the end.
    pub fn push(&mut self, n: Nibble)
        // The path has fewer than 64 nibbles.
        requires { length self.old < 64 }
        // The path is the old one with the nibble at its end.
        ensures { self.new ≡ self.old ++ n ∷ [] }
    {
        let number = n.get();
        let last = self.count as usize / 2;
        self.nibbles[last] = if self.count % 2 == 0 {
            number * 16
        } else {
            self.nibbles[last] + number
        };
        self.count += 1;
    }

    /// The path of the child at nibble `n`.
    pub fn child(&self, n: Nibble) -> NibblePath
        // The path has fewer than 64 nibbles.
        requires { length self.now < 64 }
        // The result is the path with the nibble at its end.
        ensures { result ≡ self.now ++ n ∷ [] }
    {
        let mut path = *self;
        path.push(n);
        path
    }

    /// Whether the path begins with all nibbles of `front`.
    pub fn starts_with(&self, front: &NibblePath) -> bool
        // The result is true exactly if the path begins with all nibbles of `front`.
        ensures { result ≡ starts_with (λ n m. n == m) self.now front.now }
    {
        let whole = front.count as usize / 2;
        self.count >= front.count
            && front.nibbles[..whole] == self.nibbles[..whole]
            && (front.count % 2 == 0 || front.nibbles[whole] / 16 == self.nibbles[whole] / 16)
    }

    /// Writes the number of nibbles, and the nibbles two to a byte, the first in the high half; an odd last byte has a
    /// zero low half. Returns the number of bytes, 1 to 33; the bytes after them are unchanged.
    pub fn to_bytes(&self, out: &mut [u8; 33]) -> usize
        // The result is the number of the path's bytes.
        ensures value { result ≡ length (path_bytes self.now) }
        // `out` begins with the path's bytes, and what is after them is unchanged.
        ensures bytes { out.new ≡ path_bytes self.now ++ drop result out.old }
    {
        let end = (self.count as usize + 1) / 2;
        out[0] = self.count;
        out[1..end + 1].copy_from_slice(&self.nibbles[..end]);
        end + 1
    }

    /// The path of these bytes, as `to_bytes` writes them, with nothing after them.
    pub fn from_bytes(bytes: &[u8]) -> Result<NibblePath, PathFault>
        // After Ok, the bytes are those of the result.
        ensures value { IfOk result (λ path. bytes.now ≡ path_bytes path) }
        // If the bytes are those of a path, the result is this path.
        ensures found { (path : List ℕ) → IsPath path → bytes.now ≡ path_bytes path → result ≡ Ok path }
        // A fault is returned exactly if the bytes are those of no path, and says why.
        ensures refused { result_err result ≡ path_fault bytes.now }
    {
        let Some((count, packed)) = bytes.split_first() else {
            return Err(PathFault::Length);
        };
        match fault_of(*count, packed) {
            Some(fault) => Err(fault),
            None => Ok(NibblePath::of_packed(packed, *count)),
        }
    }

    // The path of `count` packed nibbles, of which an odd last byte has a zero low half.
    fn of_packed(bytes: &[u8], count: u8) -> NibblePath
        requires bounded { count ≤ 64 }
        requires long { length bytes.now ≡ (count + 1) / 2 }
        requires end { count % 2 ≡ 1 → slice_index bytes.now (count / 2) % 16 ≡ 0 }
        ensures { result ≡ take count (halves bytes.now) }
    {
        let mut nibbles = [0; 32];
        nibbles[..bytes.len()].copy_from_slice(bytes);
        NibblePath { nibbles, count }
    }
}

// Why these bytes aren't `count` packed nibbles, if they aren't.
fn fault_of(count: u8, packed: &[u8]) -> Option<PathFault>
    ensures { result ≡ path_fault (count ∷ packed.now) }
{
    if count > MAX_NIBBLES || packed.len() != (count as usize + 1) / 2 {
        return Some(PathFault::Length);
    }
    if count % 2 == 1 && packed[count as usize / 2] % 16 != 0 {
        return Some(PathFault::Padding);
    }
    None
}

impl PartialEq for NibblePath {
    ghost use Rattle.std.specs.Prelude.{◌==◌};
    ghost use Rattle.std.specs.Cmp.Lexicographic.{pointwise};
    ghost use Rattle.std.specs.Cmp.{partial_equiv_from_equiv};
    ghost use Rattle.std.proofs.lemmas.Cmp.{nat_list_eq_equiv};

    ghost eq = { pointwise (λ n m. n == m) };

    ghost laws = { partial_equiv_from_equiv nat_list_eq_equiv };

    fn eq(&self, other: &NibblePath) -> bool {
        self.nibbles == other.nibbles && self.count == other.count
    }
}

impl Eq for NibblePath {
    ghost use Rattle.std.proofs.lemmas.Cmp.{nat_list_eq_equiv};

    ghost laws = { nat_list_eq_equiv };
}

impl PartialOrd for NibblePath {
    ghost use Rattle.std.specs.Ordering.{nat_cmp, as_partial_cmp};
    ghost use Rattle.std.specs.Cmp.Lexicographic.{slice_cmp};
    ghost use Rattle.std.specs.Cmp.{partial_order_from_own_ties};
    ghost use Rattle.std.specs.Cmp.Rules.{comparing};
    ghost use Rattle.std.proofs.Common.{rules};

    ghost partial_cmp = { as_partial_cmp (slice_cmp nat_cmp) };

    ghost laws = { partial_order_from_own_ties (Prim.search (comparing, rules)) (Prim.search (comparing, rules)) };

    fn partial_cmp(&self, other: &NibblePath) -> Option<Ordering> {
        Some(self.cmp(other))
    }
}

impl Ord for NibblePath {
    ghost use Rattle.std.specs.Ordering.{nat_cmp};
    ghost use Rattle.std.specs.Cmp.Lexicographic.{slice_cmp};
    ghost use Rattle.std.specs.Cmp.Rules.{comparing};
    ghost use Rattle.std.proofs.Common.{rules};

    ghost cmp = { slice_cmp nat_cmp };

    ghost total = { Prim.search (comparing, rules) };

    ghost matches_partial_cmp = { Prim.search (comparing, rules) };

    ghost matches_eq = { Prim.search (comparing, rules) };

    fn cmp(&self, other: &NibblePath) -> Ordering {
        self.nibbles
            .cmp(&other.nibbles)
            .then(self.count.cmp(&other.count))
    }
}
