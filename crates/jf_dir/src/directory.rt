// The directory of a store.
ghost use Rattle.std.specs.Prelude.{◌≡◌, ◌↔◌, ℕ, true, ◌+◌, ◌*◌, ◌^◌, ◌<◌, ◌≤◌, length, reverse, IfOk, IfSome, IsSome, OnOk, OnErr};
ghost use Rattle.std.specs.List.{AllByRecursion};
ghost use Rattle.std.specs.Option.{SomeIff};
ghost use Rattle.std.specs.FinMap.{entries, len};
ghost use Rattle.jf_path.specs.Limits.{max_value};
ghost use Rattle.jf_hash.specs.Maps.{Map, IsMap, IsBatch, apply};
ghost use Rattle.jf_model.specs.Nodes.{Path, is_node, kept_nodes};
ghost use Rattle.jf_model.specs.Versions.{IsVersions, root_of};
ghost use Rattle.jf_codec.specs.declared.format.Format.TheVariants as format;
ghost use Rattle.jf_diff.specs.Landings.{version_in};
ghost use Rattle.jf_update.specs.Outcomes.{AreShort};
ghost use Rattle.jf_update.specs.ValueHashes.{AreValueHashes};
ghost use Rattle.jf_standing.specs.Named.{not_stale, map_at};
ghost use Rattle.jf_standing.specs.Standing.{Standing, versions_of, with_floor};
ghost use Rattle.jf_standing.specs.Sound.{IsSound};
ghost use Rattle.jf_standing.specs.Landing.{head_map, landing_of, version_after};
ghost use Rattle.jf_standing.specs.Building.{landed_on, new_standing};
ghost use Rattle.jf_standing.specs.Next.{IsReadStanding};
ghost use Rattle.jf_dir.specs.Directories.{IsLandingUpdate, IsSnapshotAt, snapshot_standing};
ghost use Rattle.jf_dir.specs.Holding.{landing_update};

use crate::counting::{node_count, sum_within};
use crate::front::drop_front;
use crate::listing::nodes_in_order;
use crate::next_version::NextVersion;
use crate::roots::{know_hashes, roots_with};
use crate::spelled_commit::SpelledCommit;
use crate::stale_counts::count_left;
use jf_hash::Hash;
use jf_join::{Gate, Workers};
use jf_node::{Snapshot, Update};
use jf_path::{Key, LiveList, Memory, SharedBytes};
use jf_split::Batch;
use jf_update::{Written, advance, landing_lists, value_hashes};
use std::alloc::Global;
use std::collections::VecDeque;
use std::marker::Model;
use std::thread::Threads;

/// The versions of a store from floor to head, each as a snapshot, and the named nodes that they keep.
#[derive(Drop)]
pub struct Directory {
    base: u64,
    // The root of version `base + n` stands at place n.
    roots: Vec<Hash>,
    // The snapshots of the versions from floor to head, the oldest first.
    snapshots: VecDeque<Snapshot>,
    // The number of nodes that went stale at each version after the floor, the oldest version first.
    stale: VecDeque<u64>,
    // The number of nodes that are kept.
    count: u64,
}

impl Model for Directory {
    ghost use Rattle.jf_standing.specs.Standing.{Standing};

    ghost Value = { Standing };

    ghost use Rattle.jf_dir.specs.Holding.{standing_held, IsStandingHeld};

    ghost view = { λ d. standing_held d.base d.roots.items d.snapshots.items };

    ghost invariant = { λ d. IsStandingHeld (standing_held d.base d.roots.items d.snapshots.items) d.base d.roots.items d.snapshots.items d.stale.items d.count };
}

impl Directory {
    /// A new store: version 0, whose map is empty.
    pub fn fresh_store(alloc: Global) -> Result<Directory, Memory>
        ensures { IfOk result (λ d. d ≡ new_standing format.Two) }
    {
        Directory::of(alloc, 0, &[], Snapshot::empty(0))
    }

    /// A directory of one version, its floor and head. `earlier` are the roots of the versions from `base` to the one
    /// before it, the oldest first. If memory runs out, the snapshot is dropped.
    pub fn of(
        alloc: Global,
        base: u64,
        earlier: &[Hash],
        snapshot: Snapshot,
    ) -> Result<Directory, Memory>
        requires numbered { base + length earlier.now ≡ snapshot.version }
        requires bounded { snapshot.version < not_stale }
        requires room { len snapshot.map ≤ 2 ^ 63 }
        ensures { IfOk result (λ d. d ≡ snapshot_standing base earlier.now snapshot) }
    {
        snapshot.know();
        know_hashes(earlier);
        let count = node_count(&snapshot)?;
        let roots = roots_with(alloc, earlier, snapshot.root())?;
        let mut snapshots = VecDeque::new(alloc);
        snapshots.push_back(snapshot)?;
        Ok(Directory {
            base,
            roots,
            snapshots,
            stale: VecDeque::new(alloc),
            count,
        })
    }

    /// The oldest version whose root is kept.
    pub fn base(&self) -> u64
        ensures { result ≡ self.now.base }
    {
        self.base
    }

    /// The oldest version whose nodes are kept.
    pub fn floor(&self) -> u64
        ensures { result ≡ self.now.floor }
    {
        self.oldest().version()
    }

    /// The newest version.
    pub fn head(&self) -> u64
        ensures { result ≡ self.now.head }
    {
        self.newest().version()
    }

    /// The number of nodes that are kept.
    pub fn count(&self) -> u64
        ensures { result ≡ length self.now.nodes }
    {
        self.count
    }

    /// The roots of the versions from base to head, the oldest first.
    pub fn roots(&self) -> &[Hash]
        ensures { result.now ≡ reverse self.now.roots }
    {
        &self.roots
    }

    /// The root of a version, or `None` if it isn't from base to head.
    pub fn root_of(&self, version: u64) -> Option<Hash>
        ensures { SomeIff result ((self.now.base ≤ version) × (version ≤ self.now.head)) (root_of (versions_of self.now) version) }
    {
        let place = version.checked_sub(self.base)?;
        let root = self.roots.get(place as usize)?;
        Some(*root)
    }

    /// The snapshot of a version, or `None` if it isn't from floor to head.
    pub fn at(&self, version: u64) -> Option<&Snapshot>
        ensures kept { IsSome result ↔ ((self.now.floor ≤ version) × (version ≤ self.now.head)) }
        ensures snapshot { IfSome result (λ s. IsSnapshotAt self.now version s.now) }
    {
        let place = version.checked_sub(self.floor())?;
        let snapshot = self.snapshots.get(place as usize)?;
        Some(snapshot)
    }

    // The snapshot of the floor.
    fn oldest(&self) -> &Snapshot
        ensures { IsSnapshotAt self.now self.now.floor result.now }
    {
        match self.snapshots.front() {
            None => unreachable!(),
            Some(snapshot) => snapshot,
        }
    }

    /// The snapshot of the head.
    pub fn newest(&self) -> &Snapshot
        ensures { IsSnapshotAt self.now self.now.head result.now }
    {
        match self.snapshots.back() {
            None => unreachable!(),
            Some(snapshot) => snapshot,
        }
    }

    /// Ensures what holds of every directory. Changes nothing.
    pub fn know(&self)
        ensures read { IsReadStanding self.now }
        ensures sound { IsSound format.Two self.now }
        ensures short { (w : ℕ) → self.now.floor ≤ w → w ≤ self.now.head → AllByRecursion (λ e. length e.1 ≤ max_value) (entries (map_at w self.now.nodes)) }
        ensures kept { length self.now.nodes ≡ kept_nodes (versions_of self.now) }
        ensures versions { IsVersions (versions_of self.now) }
    {
        let _ = &self.snapshots;
    }

    /// What the landing of changes on the head would write, of any number of changes; `hashes` has the hash of each
    /// value at the place of its change.
    pub fn next<H: Threads + Sync, G: Gate>(
        &self,
        rt: &H,
        alloc: Global,
        entries: &[(Key, Option<SharedBytes>)],
        hashes: &[Hash],
        workers: Workers,
        gate: &G,
    ) -> Result<NextVersion, Memory>
        requires bounded { self.now.head + 1 < not_stale }
        requires batch { IsBatch entries.now }
        requires short { AreShort entries.now }
        requires hashed { AreValueHashes entries.now hashes.now }
        ensures landing { IfOk result (IsLandingUpdate self.now (apply (head_map self.now) entries.now)) }
        ensures own { IfOk result (λ u. IsLandingUpdate self.now u.snapshot.map u) }
        ensures bounded { IfOk result (λ u. length u.fresh ≤ 66 * length entries.now + 1) }
    {
        let head = self.newest();
        let snapshot = advance(rt, alloc, head, entries, hashes, workers, gate)?;
        let Written { fresh, stale } = landing_lists(rt, alloc, head, &snapshot, workers, gate)?;
        // Ensures that the names rise.
        let _ = stale.as_slice();
        let landing = SpelledCommit {
            version: snapshot.version(),
            root: snapshot.root(),
            fresh,
            stale,
        };
        Ok(NextVersion::of(landing, snapshot))
    }

    /// What the landing of a batch on the head would write.
    pub fn next_of<H: Threads + Sync, G: Gate>(
        &self,
        rt: &H,
        alloc: Global,
        batch: &Batch,
        workers: Workers,
        gate: &G,
    ) -> Result<NextVersion, Memory>
        requires bounded { self.now.head + 1 < not_stale }
        ensures landing { IfOk result (IsLandingUpdate self.now (apply (head_map self.now) batch.now)) }
        ensures own { IfOk result (λ u. IsLandingUpdate self.now u.snapshot.map u) }
        ensures bounded { IfOk result (λ u. length u.fresh ≤ 66 * length batch.now + 1) }
    {
        let entries = batch.as_slice();
        let hashes = value_hashes(rt, alloc, entries, workers)?;
        self.next(rt, alloc, entries, &hashes, workers, gate)
    }

    /// As `next_of`, with copies of the nodes, each by itself.
    pub fn update<H: Threads + Sync, G: Gate>(
        &self,
        rt: &H,
        alloc: Global,
        batch: &Batch,
        workers: Workers,
        gate: &G,
    ) -> Result<Update, Memory>
        requires bounded { self.now.head + 1 < not_stale }
        ensures landing { IfOk result (IsLandingUpdate self.now (apply (head_map self.now) batch.now)) }
        ensures own { IfOk result (λ u. IsLandingUpdate self.now u.snapshot.map u) }
        ensures bounded { IfOk result (λ u. length u.fresh ≤ 66 * length batch.now + 1) }
    {
        let next = self.next_of(rt, alloc, batch, workers, gate)?;
        let (landing, snapshot) = next.into_parts();
        snapshot.know();
        let SpelledCommit {
            root,
            fresh,
            stale,
            ..
        } = landing;
        let fresh = fresh.copy(alloc)?;
        Ok(Update {
            root,
            fresh,
            stale,
            snapshot,
        })
    }

    /// Makes a landing on the head, given as an update. If memory runs out, the directory is unchanged.
    pub fn apply(&mut self, update: &Update) -> Result<(), Memory>
        requires landing { IsLandingUpdate self.old update.now.snapshot.map update.now }
        requires room { len update.now.snapshot.map ≤ 2 ^ 63 }
        ensures ok { OnOk result (self.new ≡ landed_on format.Two update.now.snapshot.map self.old) }
        ensures err { OnErr result (self.new ≡ self.old) }
    {
        let snapshot = update.snapshot.share()?;
        self.push_landing(
            update.root,
            update.fresh.len(),
            update.stale.len(),
            snapshot,
        )
    }

    /// Makes a landing on the head: `landing` is what it writes, and `snapshot` that of its map. If memory runs out, the
    /// directory is unchanged, and the snapshot is dropped.
    pub fn apply_landing(
        &mut self,
        landing: &SpelledCommit,
        snapshot: Snapshot,
    ) -> Result<(), Memory>
        requires bounded { self.old.head + 1 < not_stale }
        requires landing { landing.now ≡ landing_of format.Two self.old snapshot.map }
        requires version { snapshot.version ≡ self.old.head + 1 }
        requires versions { (p : Path) → is_node 0 p (entries snapshot.map) ≡ true → version_in snapshot p ≡ version_after self.old snapshot.map p }
        requires room { len snapshot.map ≤ 2 ^ 63 }
        ensures ok { OnOk result (self.new ≡ landed_on format.Two snapshot.map self.old) }
        ensures err { OnErr result (self.new ≡ self.old) }
    {
        self.push_landing(
            landing.root,
            landing.fresh.len(),
            landing.stale.len(),
            snapshot,
        )
    }

    // Makes a landing on the head of which this is the root, the number of nodes that it writes, the number of those that it
    // makes stale, and the snapshot. If memory runs out, the directory is unchanged.
    fn push_landing(
        &mut self,
        root: Hash,
        fresh: u64,
        stale: u64,
        snapshot: Snapshot,
    ) -> Result<(), Memory>
        requires landing { IsLandingUpdate self.old snapshot.map (landing_update self.old snapshot) }
        requires root { root ≡ (landing_update self.old snapshot).root }
        requires fresh { fresh ≡ length (landing_update self.old snapshot).fresh }
        requires stale { stale ≡ length (landing_update self.old snapshot).stale }
        requires room { len snapshot.map ≤ 2 ^ 63 }
        ensures ok { OnOk result (self.new ≡ landed_on format.Two snapshot.map self.old) }
        ensures err { OnErr result (self.new ≡ self.old) }
    {
        snapshot.know();
        let count = sum_within(self.count, fresh)?;
        self.roots.reserve(1)?;
        self.snapshots.reserve(1)?;
        self.stale.reserve(1)?;
        self.roots.push_reserved(root);
        self.snapshots.push_back_reserved(snapshot);
        self.stale.push_back_reserved(stale);
        self.count = count;
        Ok(())
    }

    /// Takes back the update that made the head: all is as it was before. It takes no memory.
    pub fn undo(&mut self, update: &Update)
        requires made { (s : Standing) × IsReadStanding s × IsSound format.Two s × IsLandingUpdate s update.now.snapshot.map update.now × (self.old ≡ landed_on format.Two update.now.snapshot.map s) }
        ensures { (s : Standing) → IsReadStanding s → IsSound format.Two s → IsLandingUpdate s update.now.snapshot.map update.now → self.old ≡ landed_on format.Two update.now.snapshot.map s → self.new ≡ s }
    {
        update.snapshot.know();
        self.pop_landing(update.fresh.len());
    }

    /// Takes back the landing that made the head, given as what it writes. It takes no memory.
    pub fn undo_landing(&mut self, landing: &SpelledCommit)
        requires made { (s : Standing) × (m : Map) × IsReadStanding s × IsSound format.Two s × IsMap m × (landing.now ≡ landing_of format.Two s m) × (self.old ≡ landed_on format.Two m s) }
        ensures { (s : Standing) (m : Map) → IsReadStanding s → IsSound format.Two s → IsMap m → landing.now ≡ landing_of format.Two s m → self.old ≡ landed_on format.Two m s → self.new ≡ s }
    {
        self.pop_landing(landing.fresh.len());
    }

    // Takes back the landing that made the head, which wrote so many nodes.
    fn pop_landing(&mut self, fresh: u64)
        requires made { (s : Standing) × (m : Map) × IsReadStanding s × IsSound format.Two s × IsMap m × (fresh ≡ length (landing_of format.Two s m).fresh) × (self.old ≡ landed_on format.Two m s) }
        ensures { (s : Standing) (m : Map) → IsReadStanding s → IsSound format.Two s → IsMap m → fresh ≡ length (landing_of format.Two s m).fresh → self.old ≡ landed_on format.Two m s → self.new ≡ s }
    {
        let newest = self.newest();
        newest.know();
        let _ = self.snapshots.pop_back();
        let _ = self.roots.pop();
        let _ = self.stale.pop_back();
        self.count -= fresh;
    }

    /// Drops the versions below a later floor, and the nodes that are stale by then. It takes no memory.
    pub fn prune(&mut self, floor: u64)
        requires low { self.old.floor ≤ floor }
        requires high { floor ≤ self.old.head }
        ensures { self.new ≡ with_floor floor self.old }
    {
        let versions = floor - self.floor();
        drop_front(&mut self.snapshots, versions);
        self.count = count_left(&mut self.stale, versions, self.count);
    }

    /// The nodes that are kept, in the order of their names, each with the version since which it is stale.
    pub fn live(&self, alloc: Global) -> Result<LiveList, Memory>
        ensures { IfOk result (λ l. l ≡ self.now.nodes) }
    {
        nodes_in_order(alloc, self)
    }
}
