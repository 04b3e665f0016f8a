// A map from keys to values, as one list of entries.
ghost use Rattle.std.specs.Prelude.{◌≡◌, IfOk, OnOk, T, [], ◌++◌, map};
ghost use Rattle.std.specs.Option.{option_copied};
ghost use Rattle.std.specs.FinMap as fin;
ghost use Rattle.std.specs.FinMap.{is_sorted};
ghost use Rattle.jf_path.specs.Keys.{key_cmp};
ghost use Rattle.jf_hash.specs.Maps.{IsMap, apply};
ghost use Rattle.jf_hash.specs.Roots.{root, leaf_of};
ghost use Rattle.jf_model.specs.Changes.{entries_after_batch};
ghost use Rattle.jf_plain.specs.Entries.{HasShortValues, IsPlaceInMap, IsCountBelow, IsCountAt};
ghost use Rattle.jf_model.specs.Changes.{with_put};

use jf_hash::{Hash, plain_root, value};
use jf_path::{Bytes, Key, Memory, SharedBytes};
use jf_split::Batch;
use std::alloc::Global;
use std::marker::Model;

/// A map from keys to values of at most 4,096 bytes.
#[derive(Debug, Drop)]
pub struct PlainMap {
    // In the ascending order of the keys.
    entries: Vec<(Key, Bytes)>,
}

impl Model for PlainMap {
    ghost use Rattle.jf_path.specs.Keys.{key_cmp};
    ghost use Rattle.jf_hash.specs.Maps.{Map};
    ghost use Rattle.jf_hash.specs.Codes.{map_code};
    ghost use Rattle.jf_hash.specs.Maps.{map_of_entries};
    ghost use Rattle.jf_plain.specs.Entries.{AreMapEntries};

    ghost Value = { Map };

    ghost coded = { map_code };

    ghost view = { λ m. map_of_entries m.entries.items };

    ghost invariant = { λ m. AreMapEntries m.entries.items };
}

impl PlainMap {
    /// A map without keys.
    pub fn new(alloc: Global) -> PlainMap
        ensures { result ≡ fin.empty }
    {
        PlainMap {
            entries: Vec::new(alloc),
        }
    }

    /// The number of keys.
    pub fn len(&self) -> u64
        ensures { result ≡ fin.len self.now }
    {
        self.entries.len() as u64
    }

    /// The value of a key, or `None` if the map doesn't have the key.
    pub fn get(&self, key: &Key) -> Option<&[u8]>
        ensures { option_copied result ≡ fin.get self.now key.now }
    {
        let place = place_of(&self.entries, key)?;
        Some(self.entries[place].1.as_slice())
    }

    /// The map after a batch. This map is unchanged.
    pub fn map_after(&self, alloc: Global, batch: &Batch) -> Result<PlainMap, Memory>
        ensures { IfOk result (λ m. m ≡ apply self.now batch.now) }
    {
        Ok(PlainMap {
            entries: merged_entries(alloc, &self.entries, batch.as_slice())?,
        })
    }

    /// The root of the map. Each entry is hashed.
    pub fn root(&self, alloc: Global) -> Result<Hash, Memory>
        ensures { IfOk result (λ r. r ≡ root self.now) }
    {
        Ok(plain_root(&leaves(alloc, &self.entries)?))
    }

    /// What holds of each map, for proofs; it does nothing when it runs.
    pub fn know_sound(&self)
        ensures sound { IsMap self.now }
        ensures short { HasShortValues self.now }
    {
        let _ = &self.entries;
    }
}

/// The place of a key among entries in the order of their keys, or `None` if it isn't there.
fn place_of(entries: &[(Key, Bytes)], key: &Key) -> Option<usize>
    requires { T (is_sorted key_cmp entries.now) }
    ensures { IsPlaceInMap key.now entries.now result }
{
    entries.binary_search_by_key(key, key_of).ok()
}

/// The key of an entry.
fn key_of(entry: &(Key, Bytes)) -> Key
    ensures { result ≡ entry.now.0 }
{
    entry.0
}

/// The keys, each with the hash of its value.
fn leaves(alloc: Global, entries: &[(Key, Bytes)]) -> Result<Vec<(Hash, Hash)>, Memory>
    ensures { IfOk result (λ v. v.items ≡ map leaf_of entries.now) }
{
    let mut leaves = Vec::with_capacity(alloc, entries.len())?;
    for (key, bytes) in entries {
        leaves.push((*key, value(bytes.as_slice())))?;
    }
    Ok(leaves)
}

/// How many entries at the front have keys below this one.
fn count_below(entries: &[(Key, Bytes)], key: &Key) -> usize
    ensures { IsCountBelow key.now entries.now result }
{
    for (i, entry) in entries.iter().enumerate() {
        if entry.0.cmp(key).is_ge() {
            return i;
        }
    }
    entries.len()
}

/// How many entries at the front have this key, if keys ascend: 0 or 1.
fn count_at(entries: &[(Key, Bytes)], key: &Key) -> usize
    ensures { IsCountAt key.now entries.now result }
{
    match entries.first() {
        Some(first) if first.0 == *key => 1,
        _ => 0,
    }
}

/// Appends copies of entries.
fn push_copies(
    alloc: Global,
    entries: &mut Vec<(Key, Bytes)>,
    from: &[(Key, Bytes)],
) -> Result<(), Memory>
    ensures { OnOk result (entries.new.items ≡ entries.old.items ++ from.now) }
{
    for (key, bytes) in from {
        entries.push((*key, Bytes::copy_of(alloc, bytes.as_slice())?))?;
    }
    Ok(())
}

/// Appends what a batch puts for a key, if it puts anything.
fn push_put(
    alloc: Global,
    entries: &mut Vec<(Key, Bytes)>,
    key: &Key,
    put: &Option<SharedBytes>,
) -> Result<(), Memory>
    ensures { OnOk result (entries.new.items ≡ entries.old.items ++ with_put key.now put.now []) }
{
    if let Some(bytes) = put {
        entries.push((*key, Bytes::copy_of(alloc, bytes.as_slice())?))?;
    }
    Ok(())
}

/// Entries after a batch. It goes once along both.
fn merged_entries(
    alloc: Global,
    entries: &[(Key, Bytes)],
    batch: &[(Key, Option<SharedBytes>)],
) -> Result<Vec<(Key, Bytes)>, Memory>
    requires sorted { T (is_sorted key_cmp entries.now) }
    requires batch { T (is_sorted key_cmp batch.now) }
    ensures { IfOk result (λ v. v.items ≡ entries_after_batch entries.now batch.now) }
{
    let mut merged = Vec::with_capacity(alloc, entries.len().saturating_add(batch.len()))?;
    let mut next = 0;
    for (key, put) in batch {
        let end = next + count_below(&entries[next..], key);
        push_copies(alloc, &mut merged, &entries[next..end])?;
        push_put(alloc, &mut merged, key, put)?;
        next = end + count_at(&entries[end..], key);
    }
    push_copies(alloc, &mut merged, &entries[next..])?;
    Ok(merged)
}
