// Bytes of several owners.
ghost use Rattle.std.specs.Prelude.{◌≡◌, length, IfOk};
ghost use Rattle.jf_path.specs.Storages.{IsHolding, IsStorage, held_bytes, stored_bytes};

use crate::bytes::Bytes;
use crate::memory::Memory;
use std::alloc::Global;
use std::marker::Model;
use std::sync::Arc;

/// The most bytes that each owner has for itself.
const OWN: usize = 14;

/// The most bytes that lie in one block of memory with the number of their owners.
const SHORT: usize = 38;

/// What owners share: up to 38 bytes at the place itself, or more bytes that lie elsewhere.
#[derive(Debug, Drop)]
pub(crate) enum Storage {
    Short { bytes: [u8; SHORT], len: u8 },
    Long { bytes: Bytes },
}

/// What an owner has: up to 14 bytes for itself, or a share of more.
#[derive(Debug, Drop)]
pub(crate) enum Holding {
    Own { len: u8, bytes: [u8; OWN] },
    Shared { storage: Arc<Storage, Global> },
}

/// Bytes that don't change, of several owners. Each has up to 14 bytes for itself; more are shared, and freed with their
/// last owner.
#[derive(Debug, Drop)]
pub struct SharedBytes {
    holding: Holding,
}

impl Model for SharedBytes {
    ghost use Rattle.std.specs.Prelude.{List, ℕ};

    ghost Value = { List ℕ };

    ghost use Rattle.jf_path.specs.Storages.{IsHolding, held_bytes};

    ghost view = { λ b. held_bytes b.holding };

    ghost invariant = { λ b. IsHolding b.holding };
}

impl SharedBytes {
    /// These bytes, which are taken over; up to 38 bytes are copied. If memory runs out, they are dropped.
    pub fn of(alloc: Global, bytes: Bytes) -> Result<SharedBytes, Memory>
        // After Ok, the result has these bytes.
        ensures { IfOk result (λ b. b ≡ bytes) }
    {
        if bytes.len() <= SHORT as u64 {
            return SharedBytes::copy_of(alloc, bytes.as_slice());
        }
        let storage = Arc::new(alloc, Storage::Long { bytes })?;
        Ok(SharedBytes {
            holding: Holding::Shared { storage },
        })
    }

    /// A copy of these bytes.
    pub fn copy_of(alloc: Global, from: &[u8]) -> Result<SharedBytes, Memory>
        // After Ok, the result has the same bytes as `from`.
        ensures { IfOk result (λ b. b ≡ from.now) }
    {
        Ok(SharedBytes {
            holding: holding_of(alloc, from)?,
        })
    }

    /// One more owner of the same bytes. Up to 14 are copied, and more are shared.
    pub fn share(&self) -> Result<SharedBytes, Memory>
        // After Ok, the result has the same bytes.
        ensures { IfOk result (λ b. b ≡ self.now) }
    {
        let holding = match &self.holding {
            Holding::Own { len, bytes } => Holding::Own {
                len: *len,
                bytes: *bytes,
            },
            Holding::Shared { storage } => Holding::Shared {
                storage: Arc::try_clone(storage)?,
            },
        };
        Ok(SharedBytes { holding })
    }

    /// The number of bytes.
    pub fn len(&self) -> u64
        // The result is the number of bytes.
        ensures { result ≡ length self.now }
    {
        self.as_slice().len() as u64
    }

    /// The bytes.
    pub fn as_slice(&self) -> &[u8]
        // The slice holds the bytes.
        ensures { result.now ≡ self.now }
    {
        match &self.holding {
            Holding::Own { len, bytes } => &bytes[..*len as usize],
            Holding::Shared { storage } => stored_slice(storage),
        }
    }
}

// The bytes that are stored.
fn stored_slice(storage: &Storage) -> &[u8]
    requires { IsStorage storage.now }
    ensures { result.now ≡ stored_bytes storage.now }
{
    match storage {
        Storage::Short { bytes, len } => &bytes[..*len as usize],
        Storage::Long { bytes } => bytes.as_slice(),
    }
}

// A copy of these bytes, which the owner has for itself if they are at most 14.
fn holding_of(alloc: Global, from: &[u8]) -> Result<Holding, Memory>
    ensures holding { IfOk result IsHolding }
    ensures bytes { IfOk result (λ h. held_bytes h ≡ from.now) }
{
    if from.len() > OWN {
        let storage = Arc::new(alloc, storage_of(alloc, from)?)?;
        return Ok(Holding::Shared { storage });
    }
    let mut bytes = [0; OWN];
    bytes[..from.len()].copy_from_slice(from);
    Ok(Holding::Own {
        len: from.len() as u8,
        bytes,
    })
}

// A copy of these bytes, which lies at the place itself if they are at most 38.
fn storage_of(alloc: Global, from: &[u8]) -> Result<Storage, Memory>
    ensures storage { IfOk result IsStorage }
    ensures bytes { IfOk result (λ b. stored_bytes b ≡ from.now) }
{
    if from.len() > SHORT {
        return Ok(Storage::Long {
            bytes: Bytes::copy_of(alloc, from)?,
        });
    }
    let mut bytes = [0; SHORT];
    bytes[..from.len()].copy_from_slice(from);
    Ok(Storage::Short {
        bytes,
        len: from.len() as u8,
    })
}
