// A batch of changes, in the order of their keys.
ghost use Rattle.std.specs.Prelude.{◌≡◌, ◌⊎◌, [], ◌≤◌, ◌<◌, length, OnOk, OnErr, IfOk, IfErr, IfSome, IsSome, IsOk, Some, None, Err, IsTrue, T, map};
ghost use Rattle.std.specs.List.{IsDistinct};
ghost use Rattle.std.specs.FinMap.{put, find, is_sorted};
ghost use Rattle.jf_path.specs.Limits.{max_value};
ghost use Rattle.jf_path.specs.Keys.{key_cmp, IsBytes};
ghost use Rattle.jf_hash.specs.Maps.{IsBatch, same_key};
ghost use Rattle.jf_split.specs.Limits.{IsWithinLimits, is_full};
ghost use Rattle.jf_split.specs.Pieces.{AgreeBefore, ArePieces};
ghost use Rattle.jf_split.specs.Places.{IsPlaceOf, IsGapFor};

use crate::fault::BatchFault;
use crate::piece::{Piece, pieces_of};
use jf_path::{Key, Memory, SharedBytes};
use std::alloc::Global;
use std::cmp::Ordering;
use std::marker::Model;

/// The most keys that a batch holds, and batches that land together.
pub const MAX_KEYS: usize = 10_000;

/// A batch of changes: at most 10,000 keys in their order, each once, with a value of at most 4,096 bytes or with
/// `None`, which removes the key.
#[derive(Debug, Drop)]
pub struct Batch {
    pub(crate) entries: Vec<(Key, Option<SharedBytes>)>,
}

impl Model for Batch {
    ghost use Rattle.std.specs.Prelude.{List, ℕ, Option};

    ghost Value = { List (List ℕ × Option (List ℕ)) };

    ghost use Rattle.jf_hash.specs.Maps.{IsBatch};
    ghost use Rattle.jf_split.specs.Limits.{IsWithinLimits};

    ghost view = { λ b. b.entries.items };

    ghost invariant = { λ b. IsBatch b.entries.items × IsWithinLimits b.entries.items };
}

impl Batch {
    /// An empty batch.
    pub fn new(alloc: Global) -> Batch
        // The result has no keys.
        ensures { result ≡ [] }
    {
        Batch {
            entries: Vec::new(alloc),
        }
    }

    /// The number of keys.
    pub fn len(&self) -> usize
        // The result is the number of keys.
        ensures { result ≡ length self.now }
    {
        self.entries.len()
    }

    /// The keys in their order, each with its value, or with `None` if it is removed.
    pub fn as_slice(&self) -> &[(Key, Option<SharedBytes>)]
        // The slice holds the entries of the batch.
        ensures entries { result.now ≡ self.now }
        // Each key has 32 bytes, the keys rise strictly, and the values are bytes.
        ensures sound { IsBatch self.now }
        // No two keys are equal.
        ensures distinct { IsDistinct same_key (map (λ e. e.0) self.now) }
        // There are at most 10,000 keys, and each value has at most 4,096 bytes.
        ensures bounded { IsWithinLimits self.now }
    {
        &self.entries
    }

    /// A copy of the batch, which shares its values.
    pub fn copy(&self, alloc: Global) -> Result<Batch, Memory>
        // After Ok, the result has the same entries as this batch.
        ensures { IfOk result (λ b. b ≡ self.now) }
    {
        let mut entries = Vec::with_capacity(alloc, self.entries.len())?;
        for (key, value) in &self.entries {
            entries.push((*key, share_if(value)?))?;
        }
        Ok(Batch { entries })
    }

    /// The pieces of the batch at a depth in nibbles, before which all keys must agree: one for each nibble that the
    /// keys have there, in their order, at most sixteen.
    pub fn pieces_at(&self, alloc: Global, depth: usize) -> Result<Vec<Piece>, Memory>
        // The depth is 0 to 63.
        requires depth { depth < 64 }
        // Any two keys have the same first `depth` nibbles.
        requires agree { AgreeBefore depth self.now }
        // After Ok, the pieces tile the entries, with nibbles that rise strictly; each is exactly the entries of its nibble.
        ensures { IfOk result (λ ps. ArePieces depth self.now ps.items) }
    {
        pieces_of(alloc, &self.entries, depth)
    }

    /// Sets a key to a value of at most 4,096 bytes. After a `BatchFault` the batch is unchanged.
    pub fn put(&mut self, alloc: Global, key: &Key, value: &[u8]) -> Result<(), BatchFault>
        // The value has at most 4,096 bytes.
        requires { length value.now ≤ max_value }
        // After Ok, the key has this value, and the other entries are unchanged.
        ensures ok { OnOk result (self.new ≡ put key_cmp key.now (Some value.now) self.old) }
        // `Full` is returned only if the key is new and 10,000 are there.
        ensures full { result ≡ Err BatchFault.Full → IsTrue (is_full key.now self.old) }
        // If the key is new and 10,000 are there, the result is `Full` or `Memory`.
        ensures no_room { IsTrue (is_full key.now self.old) → (result ≡ Err BatchFault.Full) ⊎ (result ≡ Err BatchFault.Memory) }
        // After Err, the batch is unchanged.
        ensures err { OnErr result (self.new ≡ self.old) }
    {
        let value = SharedBytes::copy_of(alloc, value)?;
        self.set(key, Some(value))
    }

    /// Says that a key is to be removed. After a `BatchFault` the batch is unchanged. A key that is there already is
    /// never refused.
    pub fn del(&mut self, _alloc: Global, key: &Key) -> Result<(), BatchFault>
        // After Ok, the key stands in the batch with `None`, and the other entries are unchanged.
        ensures ok { OnOk result (self.new ≡ put key_cmp key.now None self.old) }
        // `Full` is returned only if the key is new and 10,000 are there.
        ensures full { result ≡ Err BatchFault.Full → IsTrue (is_full key.now self.old) }
        // If the key is new and 10,000 are there, the result is `Full` or `Memory`.
        ensures no_room { IsTrue (is_full key.now self.old) → (result ≡ Err BatchFault.Full) ⊎ (result ≡ Err BatchFault.Memory) }
        // If the key is in the batch already, the result is Ok.
        ensures present { IsSome (find key_cmp key.now self.old) → IsOk result }
        // After Err, the batch is unchanged.
        ensures err { OnErr result (self.new ≡ self.old) }
    {
        self.set(key, None)
    }

    // Sets a key to its value, or to `None`.
    fn set(&mut self, key: &Key, value: Option<SharedBytes>) -> Result<(), BatchFault>
        requires bytes { IfSome value IsBytes }
        requires short { IfSome value (λ v. length v ≤ max_value) }
        ensures ok { OnOk result (self.new ≡ put key_cmp key.now value self.old) }
        ensures full { result ≡ Err BatchFault.Full → IsTrue (is_full key.now self.old) }
        ensures no_room { IsTrue (is_full key.now self.old) → (result ≡ Err BatchFault.Full) ⊎ (result ≡ Err BatchFault.Memory) }
        ensures present { IsSome (find key_cmp key.now self.old) → IsOk result }
        ensures err { OnErr result (self.new ≡ self.old) }
    {
        match place_of(&self.entries, key) {
            Ok(at) => {
                self.entries[at].1 = value;
                Ok(())
            }
            Err(_) if self.entries.len() >= MAX_KEYS => Err(BatchFault::Full),
            Err(at) => Ok(self.entries.insert(at, (*key, value))?),
        }
    }
}

// The place of the key, or the place that it would have.
fn place_of(entries: &[(Key, Option<SharedBytes>)], key: &Key) -> Result<usize, usize>
    requires { T (is_sorted key_cmp entries.now) }
    ensures found { IfOk result (IsPlaceOf key.now entries.now) }
    ensures absent { IfErr result (IsGapFor key.now entries.now) }
{
    if is_above_all(entries, key) {
        return Err(entries.len());
    }
    entries.binary_search_by(|entry| order_of(entry, key))
}

// Whether the key is above all keys of the entries, which rise.
fn is_above_all(entries: &[(Key, Option<SharedBytes>)], key: &Key) -> bool
    requires { T (is_sorted key_cmp entries.now) }
    ensures { IsTrue result → IsGapFor key.now entries.now (length entries.now) }
{
    match entries.last() {
        Some(entry) => order_of(entry, key).is_lt(),
        None => true,
    }
}

// How an entry's key compares to a key. Nothing is copied.
fn order_of(entry: &(Key, Option<SharedBytes>), key: &Key) -> Ordering
    ensures { result ≡ key_cmp entry.now.0 key.now }
{
    entry.0.cmp(key)
}

// One more owner of a value, if there is one.
pub(crate) fn share_if(value: &Option<SharedBytes>) -> Result<Option<SharedBytes>, Memory>
    ensures { IfOk result (λ v. v ≡ value.now) }
{
    match value {
        Some(bytes) => Ok(Some(bytes.share()?)),
        None => Ok(None),
    }
}
