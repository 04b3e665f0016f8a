// Lists of hashes, and of entries.
ghost use Rattle.std.specs.Prelude.{◌≡◌, [], ◌∷◌, ◌++◌, length, take, IfOk, OnOk, OnErr};

use crate::bytes::Bytes;
use crate::key::Key;
use crate::memory::Memory;
use std::alloc::Global;
use std::marker::Model;

/// Hashes in any order.
#[derive(Debug, Drop)]
pub struct HashList {
    hashes: Vec<[u8; 32]>,
}

impl Model for HashList {
    ghost use Rattle.std.specs.Prelude.{List, ℕ};

    ghost Value = { List (List ℕ) };

    ghost view = { λ l. l.hashes.items };
}

impl HashList {
    /// An empty list.
    pub fn new(alloc: Global) -> HashList
        // The result has no hashes.
        ensures { result ≡ [] }
    {
        HashList {
            hashes: Vec::new(alloc),
        }
    }

    /// An empty list with room for `n` hashes.
    pub fn with_capacity(alloc: Global, n: u64) -> Result<HashList, Memory>
        // After Ok, the result has no hashes.
        ensures { IfOk result (λ l. l ≡ []) }
    {
        Ok(HashList {
            hashes: Vec::with_capacity(alloc, n as usize)?,
        })
    }

    /// The number of elements.
    pub fn len(&self) -> u64
        // The result is the number of hashes.
        ensures { result ≡ length self.now }
    {
        self.hashes.len() as u64
    }

    /// The hashes.
    pub fn as_slice(&self) -> &[[u8; 32]]
        // The slice holds the hashes of the list.
        ensures { result.now ≡ self.now }
    {
        &self.hashes
    }

    /// Adds a hash at the end. If memory runs out, the list is unchanged.
    pub fn push(&mut self, hash: [u8; 32]) -> Result<(), Memory>
        // After Ok, the list is the old one with the hash at its end.
        ensures ok { OnOk result (self.new ≡ self.old ++ hash ∷ []) }
        // After Err, the list is unchanged.
        ensures err { OnErr result (self.new ≡ self.old) }
    {
        self.hashes.push(hash)?;
        Ok(())
    }
}

/// Keys and their values, in any order.
#[derive(Debug, Drop)]
pub struct Pairs {
    pairs: Vec<(Key, Bytes)>,
}

impl Model for Pairs {
    ghost use Rattle.std.specs.Prelude.{List, ℕ};

    ghost Value = { List (List ℕ × List ℕ) };

    ghost view = { λ l. l.pairs.items };
}

impl Pairs {
    /// An empty list.
    pub fn new(alloc: Global) -> Pairs
        // The result has no pairs.
        ensures { result ≡ [] }
    {
        Pairs {
            pairs: Vec::new(alloc),
        }
    }

    /// The number of elements.
    pub fn len(&self) -> u64
        // The result is the number of pairs.
        ensures { result ≡ length self.now }
    {
        self.pairs.len() as u64
    }

    /// The keys and values.
    pub fn as_slice(&self) -> &[(Key, Bytes)]
        // The slice holds the pairs of the list.
        ensures { result.now ≡ self.now }
    {
        &self.pairs
    }

    /// Adds a key and its value at the end. If memory runs out, they are dropped, and the list is unchanged.
    pub fn push(&mut self, pair: (Key, Bytes)) -> Result<(), Memory>
        // After Ok, the list is the old one with the pair at its end.
        ensures ok { OnOk result (self.new ≡ self.old ++ pair ∷ []) }
        // After Err, the list is unchanged.
        ensures err { OnErr result (self.new ≡ self.old) }
    {
        self.pairs.push(pair)?;
        Ok(())
    }

    /// Drops the entries after the first `len`.
    pub fn truncate(&mut self, len: u64)
        // The list is the first `len` pairs of the old one, or all if it has fewer.
        ensures { self.new ≡ take len self.old }
    {
        self.pairs.truncate(len as usize);
    }
}
