// The versions of a store as plain maps, the oldest first.
ghost use Rattle.std.specs.Prelude.{◌≡◌, ◌+◌, ◌-◌, ◌^◌, ◌<◌, ◌≤◌, IfOk, OnOk, OnErr};
ghost use Rattle.std.specs.Option.{option_copied, SomeIff};
ghost use Rattle.jf_hash.specs.Roots.{root};
ghost use Rattle.jf_model.specs.Versions.{Versions, IsVersions, new_store, newest, map_of, root_of, versions_after_landing, versions_before_newest};

use crate::map::PlainMap;
use jf_hash::Hash;
use jf_path::Memory;
use jf_split::Batch;
use std::alloc::Global;
use std::marker::Model;

// A version: its map, and the map's root.
#[derive(Debug, Drop)]
struct Version {
    map: PlainMap,
    root: Hash,
}

/// The versions of a store from version 0 on, each as a whole map with its root.
#[derive(Debug, Drop)]
pub struct PlainVersions {
    // The oldest first, and at least one.
    versions: Vec<Version>,
}

impl Model for PlainVersions {
    ghost use Rattle.jf_model.specs.Versions.{Versions};
    ghost use Rattle.jf_model.specs.VersionCodes.{versions_code};

    ghost Value = { Versions };

    ghost coded = { versions_code };

    ghost use Rattle.jf_plain.specs.KeptMaps.{versions_of_list, AreKeptVersions};

    ghost view = { λ v. versions_of_list v.versions.items };

    ghost invariant = { λ v. AreKeptVersions v.versions.items };
}

impl PlainVersions {
    /// A new store: version 0, whose map is empty.
    pub fn new(alloc: Global) -> Result<PlainVersions, Memory>
        ensures { IfOk result (λ v. v ≡ new_store) }
    {
        let map = PlainMap::new(alloc);
        let root = map.root(alloc)?;
        let mut versions = Vec::new(alloc);
        versions.push(Version { map, root })?;
        Ok(PlainVersions { versions })
    }

    /// The newest version.
    pub fn head(&self) -> u64
        ensures { result ≡ self.now.head }
    {
        self.versions.len() as u64 - 1
    }

    /// The oldest version whose map is kept.
    pub fn floor(&self) -> u64
        ensures { result ≡ self.now.floor }
    {
        let _ = &self.versions;
        0
    }

    /// The map of the newest version.
    pub fn newest(&self) -> &PlainMap
        ensures { result.now ≡ newest self.now }
    {
        &self.versions[self.versions.len() - 1].map
    }

    /// The root of the newest version, as it was computed when that version was landed.
    pub fn root(&self) -> Hash
        ensures kept { result ≡ root_of self.now self.now.head }
        ensures newest { result ≡ root (newest self.now) }
    {
        self.versions[self.versions.len() - 1].root
    }

    /// The root of a version, or `None` above the newest one.
    pub fn root_of(&self, version: u64) -> Option<Hash>
        ensures { SomeIff result (version ≤ self.now.head) (root_of self.now version) }
    {
        let kept = self.versions.get(version as usize)?;
        Some(kept.root)
    }

    /// The map of a version, or `None` above the newest one.
    pub fn map_of(&self, version: u64) -> Option<&PlainMap>
        ensures { SomeIff (option_copied result) (version ≤ self.now.head) (map_of self.now version) }
    {
        let kept = self.versions.get(version as usize)?;
        Some(&kept.map)
    }

    /// Lands a batch on the newest version. If it is out of memory, the versions are unchanged.
    pub fn land(&mut self, alloc: Global, batch: &Batch) -> Result<(), Memory>
        requires { self.old.head < 2 ^ 64 - 2 }
        ensures ok { OnOk result (self.new ≡ versions_after_landing batch.now self.old) }
        ensures err { OnErr result (self.new ≡ self.old) }
    {
        let map = self.newest().map_after(alloc, batch)?;
        let root = map.root(alloc)?;
        map.know_sound();
        self.versions.push(Version { map, root })?;
        Ok(())
    }

    /// Takes the newest version back. It takes no memory.
    pub fn undo(&mut self)
        requires { 0 < self.old.head }
        ensures { self.new ≡ versions_before_newest self.old }
    {
        let _ = self.versions.pop();
    }

    /// What holds of all versions, for proofs; it does nothing when it runs.
    pub fn know_sound(&self)
        ensures sound { IsVersions self.now }
        ensures base { self.now.base ≡ 0 }
        ensures floor { self.now.floor ≡ 0 }
        ensures head { self.now.head ≤ 2 ^ 64 - 2 }
    {
        let _ = &self.versions;
    }
}
