// What changes leave where one leaf stood, or nothing.
ghost use Rattle.std.specs.Prelude.{◌≡◌, ◌<◌, ◌≤◌, [], ◌∷◌, true, false, length, IfNone, IfSome};
ghost use Rattle.std.specs.Option.{option_copied};
ghost use Rattle.jf_model.specs.Changes.{entries_after_batch};
ghost use Rattle.jf_model.specs.Puts.{puts, IsPlace, IsFirstKey};
ghost use Rattle.jf_node.specs.Children.{content};
ghost use Rattle.jf_update.specs.Outcomes.{AreParts, AreShort};
ghost use Rattle.jf_update.specs.Remainders.{IsFirstPut, IsKeptEntry, ShowsRemainder};
ghost use Rattle.jf_update.specs.ValueHashes.{AreValueHashes};

use jf_hash::Hash;
use jf_node::{Link, Seen};
use jf_path::{Key, SharedBytes};
use std::cmp::Ordering;

/// What changes leave where one leaf stood, or nothing.
pub(crate) enum Remainder<'a> {
    /// No entry.
    Nothing,
    /// The entry of the leaf that stood there, and no other.
    Old(&'a Link),
    /// One entry, which the changes put, with the hash of its value.
    Put(&'a Key, &'a SharedBytes, &'a Hash),
    /// Two entries or more.
    Several,
}

/// The number of changes whose keys are below `key`.
fn place_of(key: &Key, entries: &[(Key, Option<SharedBytes>)]) -> usize
    ensures { IsPlace key.now entries.now result }
{
    for (i, change) in entries.iter().enumerate() {
        if change.0.cmp(key) != Ordering::Less {
            return i;
        }
    }
    entries.len()
}

/// Whether the first change is a change of `key`.
fn is_first_key(key: &Key, entries: &[(Key, Option<SharedBytes>)]) -> bool
    ensures { IsFirstKey key.now entries.now result }
{
    match entries.first() {
        None => false,
        Some(change) => change.0 == *key,
    }
}

/// The place of the first change that puts a value.
fn first_put(entries: &[(Key, Option<SharedBytes>)]) -> Option<usize>
    ensures none { IfNone result (puts entries.now ≡ []) }
    ensures found { IfSome result (IsFirstPut entries.now) }
{
    for (i, change) in entries.iter().enumerate() {
        if change.1.is_some() {
            return Some(i);
        }
    }
    None
}

/// The leaf that stood there, unless its key is changed.
fn kept_of<'a>(
    own: Option<&'a Link>,
    entries: &[(Key, Option<SharedBytes>)],
    depth: u64,
) -> Option<&'a Link>
    requires lone { length (content (option_copied own)) < 2 }
    requires parts { AreParts depth (content (option_copied own)) entries.now }
    ensures entry { IsKeptEntry (content (option_copied own.entry)) entries.now (content (option_copied result)) }
    ensures own { IfSome result (λ x. (x.now.entries ≡ content (option_copied own.entry)) × (1 ≤ length x.now.entries)) }
{
    match own {
        None => None,
        Some(link) => match link.view() {
            Seen::Leaf { key, .. } => {
                let at = place_of(key, entries);
                if is_first_key(key, &entries[at..]) {
                    None
                } else {
                    Some(link)
                }
            }
            Seen::Inner { .. } => unreachable!(),
        },
    }
}

/// The entry that the changes put, or that they put several, if the change at place `i` is the first that puts a value.
fn only_put<'a>(
    entries: &'a [(Key, Option<SharedBytes>)],
    hashes: &'a [Hash],
    i: usize,
) -> Remainder<'a>
    requires short { AreShort entries.now }
    requires hashed { AreValueHashes entries.now hashes.now }
    requires first { IsFirstPut entries.now i }
    ensures { ShowsRemainder [] (puts entries.now) result }
{
    match &entries[i].1 {
        None => unreachable!(),
        Some(value) => match first_put(&entries[i + 1..]) {
            None => Remainder::Put(&entries[i].0, value, &hashes[i]),
            Some(_) => Remainder::Several,
        },
    }
}

/// What the changes of keys below one path, which is `depth` nibbles long, leave where the leaf `own` stood, or nothing.
pub(crate) fn remainder_of<'a>(
    own: Option<&'a Link>,
    entries: &'a [(Key, Option<SharedBytes>)],
    hashes: &'a [Hash],
    depth: u64,
) -> Remainder<'a>
    requires lone { length (content (option_copied own)) < 2 }
    requires parts { AreParts depth (content (option_copied own)) entries.now }
    requires hashed { AreValueHashes entries.now hashes.now }
    ensures { ShowsRemainder (content (option_copied own.entry)) (entries_after_batch (content (option_copied own.entry)) entries.now) result }
{
    let kept = kept_of(own, entries, depth);
    match first_put(entries) {
        None => match kept {
            None => Remainder::Nothing,
            Some(link) => Remainder::Old(link),
        },
        Some(i) => match kept {
            None => only_put(entries, hashes, i),
            Some(_) => Remainder::Several,
        },
    }
}

/// Whether there is no leaf.
fn is_vacant(own: Option<&Link>) -> bool
    ensures yes { result ≡ true → content (option_copied own.entry) ≡ [] }
    ensures no { result ≡ false → ¬ (content (option_copied own.entry) ≡ []) }
{
    match own {
        None => true,
        Some(link) => {
            link.know();
            false
        }
    }
}

/// Whether there is a leaf with this entry. Values are compared, and no hashes.
fn is_entry(own: Option<&Link>, key: &Key, value: &SharedBytes) -> bool
    ensures yes { result ≡ true → content (option_copied own.entry) ≡ (key.now, value.now) ∷ [] }
    ensures no { result ≡ false → ¬ (content (option_copied own.entry) ≡ (key.now, value.now) ∷ []) }
{
    match own {
        None => false,
        Some(link) => match link.view() {
            Seen::Leaf {
                key: own_key,
                value: own_value,
                ..
            } => own_key == key && own_value == value.as_slice(),
            Seen::Inner { .. } => false,
        },
    }
}

/// Whether the changes leave what was there.
pub(crate) fn is_unchanged(
    own: Option<&Link>,
    entries: &[(Key, Option<SharedBytes>)],
    hashes: &[Hash],
    depth: u64,
) -> bool
    requires lone { length (content (option_copied own)) < 2 }
    requires parts { AreParts depth (content (option_copied own)) entries.now }
    requires hashed { AreValueHashes entries.now hashes.now }
    ensures yes { result ≡ true → entries_after_batch (content (option_copied own.entry)) entries.now ≡ content (option_copied own.entry) }
    ensures no { result ≡ false → ¬ (entries_after_batch (content (option_copied own.entry)) entries.now ≡ content (option_copied own.entry)) }
{
    match remainder_of(own, entries, hashes, depth) {
        Remainder::Nothing => is_vacant(own),
        Remainder::Old(_) => true,
        Remainder::Put(key, value, _) => is_entry(own, key, value),
        Remainder::Several => false,
    }
}
