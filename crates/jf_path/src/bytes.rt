// A list of bytes that can grow.
ghost use Rattle.std.specs.Prelude.{◌≡◌, [], ◌∷◌, ◌++◌, length, take, OnOk, OnErr, IfOk};

use crate::memory::Memory;
use std::alloc::Global;
use std::marker::Model;

/// A list of bytes that can grow.
#[derive(Debug, Drop)]
pub struct Bytes {
    bytes: Vec<u8>,
}

impl Model for Bytes {
    ghost use Rattle.std.specs.Prelude.{List, ℕ};

    ghost Value = { List ℕ };

    ghost view = { λ b. b.bytes.items };
}

impl Bytes {
    /// An empty list.
    pub fn new(alloc: Global) -> Bytes
        // The result has no bytes.
        ensures { result ≡ [] }
    {
        Bytes {
            bytes: Vec::new(alloc),
        }
    }

    /// An empty list with room for `n` bytes.
    pub fn with_capacity(alloc: Global, n: u64) -> Result<Bytes, Memory>
        // After Ok, the result has no bytes.
        ensures { IfOk result (λ b. b ≡ []) }
    {
        Ok(Bytes {
            bytes: Vec::with_capacity(alloc, n as usize)?,
        })
    }

    /// A copy of these bytes.
    pub fn copy_of(alloc: Global, from: &[u8]) -> Result<Bytes, Memory>
        // After Ok, the result has the same bytes as `from`.
        ensures { IfOk result (λ b. b ≡ from.now) }
    {
        Ok(Bytes {
            bytes: from.to_vec(alloc)?,
        })
    }

    /// The number of bytes.
    pub fn len(&self) -> u64
        // The result is the number of bytes.
        ensures { result ≡ length self.now }
    {
        self.bytes.len() as u64
    }

    /// The bytes.
    pub fn as_slice(&self) -> &[u8]
        // The slice holds the bytes of the list.
        ensures { result.now ≡ self.now }
    {
        &self.bytes
    }

    /// Adds a byte at the end. If memory runs out, the list is unchanged.
    pub fn push(&mut self, byte: u8) -> Result<(), Memory>
        // After Ok, the list is the old one with the byte at its end.
        ensures ok { OnOk result (self.new ≡ self.old ++ byte ∷ []) }
        // After Err, the list is unchanged.
        ensures err { OnErr result (self.new ≡ self.old) }
    {
        self.bytes.push(byte)?;
        Ok(())
    }

    /// Adds bytes at the end. If memory runs out, the list is unchanged.
    pub fn append(&mut self, from: &[u8]) -> Result<(), Memory>
        // After Ok, the list is the old one with the bytes of `from` at its end.
        ensures ok { OnOk result (self.new ≡ self.old ++ from.now) }
        // After Err, the list is unchanged.
        ensures err { OnErr result (self.new ≡ self.old) }
    {
        self.bytes.extend_from_slice(from)?;
        Ok(())
    }

    /// Takes room for `additional` more bytes. The list is unchanged, even if memory runs out.
    pub fn reserve(&mut self, additional: u64) -> Result<(), Memory>
        // The list is unchanged, whatever the result.
        ensures { self.new ≡ self.old }
    {
        self.bytes.reserve(additional as usize)?;
        Ok(())
    }

    /// Drops the bytes after the first `len`, and keeps their room.
    pub fn truncate(&mut self, len: u64)
        // The list is the first `len` bytes of the old one, or all if it has fewer.
        ensures { self.new ≡ take len self.old }
    {
        self.bytes.truncate(len as usize);
    }

    /// Drops all bytes, and keeps their room.
    pub fn clear(&mut self)
        // The list is empty.
        ensures { self.new ≡ [] }
    {
        self.bytes.clear();
    }
}
