// The roots of versions that follow one another.
ghost use Rattle.std.specs.Prelude.{◌≡◌, ◌+◌, ◌-◌, ◌≤◌, [], length, vec_capacity};
ghost use Rattle.jf_store.specs.Landings.{roots_from};

use jf_disk::Disk;
use jf_engine::Engine;
use jf_hash::Hash;
use std::marker::Model;

/// The roots of versions that follow one another, the oldest first.
#[derive(Debug, Drop)]
pub struct RootList {
    roots: Vec<Hash>,
}

impl Model for RootList {
    ghost use Rattle.std.specs.Prelude.{List, ℕ};

    ghost Value = { List (List ℕ) };

    ghost view = { λ l. l.roots.items };
}

impl RootList {
    // The roots of an engine's versions from this one up to the head, in room that was taken for them.
    pub(crate) fn of<D: Disk>(engine: &Engine<D>, first: u64, mut room: Vec<Hash>) -> RootList
        requires low { engine.now.versions.base ≤ first }
        requires within { first ≤ engine.now.versions.head + 1 }
        requires empty { room.items ≡ [] }
        requires room { engine.now.versions.head + 1 - first ≤ vec_capacity room }
        ensures { result ≡ roots_from engine.now.versions first (engine.now.versions.head + 1 - first) }
    {
        engine.know();
        for version in first..engine.state().head + 1 {
            let Some(root) = engine.root_of(version) else {
                unreachable!()
            };
            room.push_reserved(root);
        }
        RootList { roots: room }
    }

    /// The number of roots.
    pub fn len(&self) -> u64
        // The number of roots.
        ensures { result ≡ length self.now }
    {
        self.roots.len() as u64
    }

    /// The roots in their order.
    pub fn as_slice(&self) -> &[Hash]
        // The roots, in their order.
        ensures { result.now ≡ self.now }
    {
        &self.roots
    }
}
