// Changes that are being gathered in any order, until they are made a batch.
ghost use Rattle.std.specs.Prelude.{◌≡◌, ◌⊎◌, [], ◌≤◌, length, OnOk, OnErr, IfOk, IfSome, IsSome, IsOk, Some, None, Err, IsTrue, map};
ghost use Rattle.std.specs.List.{IsDistinct};
ghost use Rattle.std.specs.FinMap.{put, find};
ghost use Rattle.jf_path.specs.Limits.{max_value};
ghost use Rattle.jf_path.specs.Keys.{key_cmp, IsBytes};
ghost use Rattle.jf_hash.specs.Maps.{same_key};
ghost use Rattle.jf_split.specs.KeyOrder.{in_key_order};
ghost use Rattle.jf_split.specs.Limits.{is_full};

use crate::batch::{Batch, MAX_KEYS, share_if};
use crate::fault::BatchFault;
use crate::hashed_key::HashedKey;
use jf_path::{Key, Memory, SharedBytes, know_bytes};
use std::alloc::Global;
use std::collections::HashMap;
use std::marker::Model;

/// For so many changes `clear` keeps room, if there were no more.
const KEPT_ROOM: usize = 64;

/// Changes for a batch: at most 10,000 keys, each once, with a value of at most 4,096 bytes or with `None`, which
/// removes the key. They may come in any order, and are sorted once, as the batch is made.
#[derive(Drop)]
pub struct Pending {
    entries: HashMap<HashedKey, Option<SharedBytes>>,
}

impl Model for Pending {
    ghost use Rattle.std.specs.Prelude.{List, ℕ, Option};

    ghost Value = { List (List ℕ × Option (List ℕ)) };

    ghost use Rattle.jf_hash.specs.Maps.{IsBatch};
    ghost use Rattle.jf_split.specs.KeyOrder.{in_key_order};
    ghost use Rattle.jf_split.specs.Limits.{IsWithinLimits};

    ghost view = { λ p. in_key_order p.entries.entries };

    ghost invariant = { λ p. IsBatch (in_key_order p.entries.entries) × IsWithinLimits (in_key_order p.entries.entries) };
}

impl Pending {
    /// No changes.
    pub fn new(alloc: Global) -> Pending
        // The result has no changes.
        ensures { result ≡ [] }
    {
        Pending {
            entries: HashMap::new(alloc),
        }
    }

    /// The number of keys.
    pub fn len(&self) -> usize
        // The result is the number of keys.
        ensures { result ≡ length self.now }
    {
        self.entries.len()
    }

    /// Sets a key to a value of at most 4,096 bytes, which is taken over. After a `BatchFault` the changes are as
    /// before.
    pub fn put(&mut self, _alloc: Global, key: &Key, value: SharedBytes) -> Result<(), BatchFault>
        // The value has at most 4,096 bytes.
        requires { length value ≤ max_value }
        // After Ok, the key has this value, and the other changes are as before.
        ensures ok { OnOk result (self.new ≡ put key_cmp key.now (Some value) self.old) }
        // `Full` is returned only if the key is new and 10,000 are there.
        ensures full { result ≡ Err BatchFault.Full → IsTrue (is_full key.now self.old) }
        // If the key is new and 10,000 are there, the result is `Full` or `Memory`.
        ensures no_room { IsTrue (is_full key.now self.old) → (result ≡ Err BatchFault.Full) ⊎ (result ≡ Err BatchFault.Memory) }
        // After Err, the changes are as before.
        ensures err { OnErr result (self.new ≡ self.old) }
    {
        know_bytes(value.as_slice());
        self.set(key, Some(value))
    }

    /// Says that a key is to be removed. After a `BatchFault` the changes are as before. A key that is there already is
    /// never refused.
    pub fn del(&mut self, _alloc: Global, key: &Key) -> Result<(), BatchFault>
        // After Ok, the key stands among the changes with `None`, and the other changes are as before.
        ensures ok { OnOk result (self.new ≡ put key_cmp key.now None self.old) }
        // `Full` is returned only if the key is new and 10,000 are there.
        ensures full { result ≡ Err BatchFault.Full → IsTrue (is_full key.now self.old) }
        // If the key is new and 10,000 are there, the result is `Full` or `Memory`.
        ensures no_room { IsTrue (is_full key.now self.old) → (result ≡ Err BatchFault.Full) ⊎ (result ≡ Err BatchFault.Memory) }
        // If the key is among the changes already, the result is Ok.
        ensures present { IsSome (find key_cmp key.now self.old) → IsOk result }
        // After Err, the changes are as before.
        ensures err { OnErr result (self.new ≡ self.old) }
    {
        self.set(key, None)
    }

    /// The batch of these changes, which shares their values.
    pub fn batch(&self, alloc: Global) -> Result<Batch, Memory>
        // After Ok, the batch has exactly these changes.
        ensures { IfOk result (λ b. b ≡ self.now) }
    {
        let mut entries = copied(alloc, &self.entries)?;
        sort_changes(&mut entries);
        Ok(Batch { entries })
    }

    /// Drops all changes. If they were at most 64, room for more than 64 is given back, so that what comes after a large
    /// batch takes no longer for it.
    pub fn clear(&mut self)
        // No changes are left.
        ensures { self.new ≡ [] }
    {
        let were_few = self.entries.len() <= KEPT_ROOM;
        self.entries.clear();
        if were_few {
            self.entries.shrink_to(KEPT_ROOM);
        }
    }

    // Sets a key to its value, or to `None`.
    fn set(&mut self, key: &Key, value: Option<SharedBytes>) -> Result<(), BatchFault>
        requires bytes { IfSome value IsBytes }
        requires short { IfSome value (λ v. length v ≤ max_value) }
        ensures ok { OnOk result (self.new ≡ put key_cmp key.now value self.old) }
        ensures full { result ≡ Err BatchFault.Full → IsTrue (is_full key.now self.old) }
        ensures no_room { IsTrue (is_full key.now self.old) → (result ≡ Err BatchFault.Full) ⊎ (result ≡ Err BatchFault.Memory) }
        ensures present { IsSome (find key_cmp key.now self.old) → IsOk result }
        ensures err { OnErr result (self.new ≡ self.old) }
    {
        if self.is_full(key) {
            return Err(BatchFault::Full);
        }
        self.entries.insert(HashedKey::of(key), value)?;
        Ok(())
    }

    // Whether the key is new, and 10,000 are there.
    fn is_full(&self, key: &Key) -> bool
        ensures { result ≡ is_full key.now self.now }
    {
        self.entries.len() >= MAX_KEYS && !self.entries.contains_key(&HashedKey::of(key))
    }
}

// The changes of a hash map in its order, with their values shared.
fn copied(
    alloc: Global,
    entries: &HashMap<HashedKey, Option<SharedBytes>>,
) -> Result<Vec<(Key, Option<SharedBytes>)>, Memory>
    ensures value { IfOk result (λ changes. changes.items ≡ entries.now.entries) }
    ensures distinct { IfOk result (λ changes. IsDistinct same_key (map (λ e. e.0) changes.items)) }
{
    let mut changes = Vec::with_capacity(alloc, entries.len())?;
    for (key, value) in entries {
        changes.push((key.get(), share_if(value)?))?;
    }
    Ok(changes)
}

// Sorts changes by their keys.
fn sort_changes(changes: &mut [(Key, Option<SharedBytes>)])
    requires { IsDistinct same_key (map (λ e. e.0) changes.old) }
    ensures { changes.new ≡ in_key_order changes.old }
{
    changes.sort_unstable_by(|a, b| a.0.cmp(&b.0));
}
