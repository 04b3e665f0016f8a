// Names in the order of their keys.
ghost use Rattle.std.specs.Prelude.{◌≡◌, [], ◌++◌, length, T, OnOk, OnErr, IfOk};
ghost use Rattle.std.specs.FinMap.{is_sorted};
ghost use Rattle.jf_path.specs.Keys.{key_cmp};
ghost use Rattle.jf_multi.specs.SharedTrees.{as_entries};
ghost use Rattle.jf_many_blocks.specs.ManyBlocks.{named_claim_lines};
ghost use Rattle.jf_names.specs.Names.{with_new_name, keys_in, claims_in};

use jf_hash::key_of;
use jf_many_blocks::write_named_claim;
use jf_node::Snapshot;
use jf_path::{Bytes, HashList, Key, Memory};
use std::alloc::Global;
use std::collections::BTreeMap;
use std::marker::Model;

/// Names in the order of their keys. Of names with one key the first that came stays.
#[derive(Drop)]
pub(crate) struct NameMap {
    names: BTreeMap<Key, Bytes>,
}

impl Model for NameMap {
    ghost use Rattle.std.specs.Prelude.{List, ℕ, T};
    ghost use Rattle.std.specs.FinMap.{is_sorted};

    ghost Value = { List (List ℕ × List ℕ) };

    ghost use Rattle.jf_path.specs.Keys.{key_cmp};

    ghost view = { λ n. n.names.entries };

    ghost invariant = { λ n. T (is_sorted key_cmp n.names.entries) };
}

impl NameMap {
    /// No names.
    pub(crate) fn new(alloc: Global) -> NameMap
        ensures { result ≡ [] }
    {
        NameMap {
            names: BTreeMap::new(alloc),
        }
    }

    /// The number of names.
    pub(crate) fn len(&self) -> u64
        ensures { result ≡ length self.now }
    {
        self.names.len() as u64
    }

    /// Adds a name, which is taken over, unless its key is there already. If memory runs out, the names are unchanged.
    pub(crate) fn add(&mut self, name: Bytes) -> Result<(), Memory>
        ensures ok { OnOk result (self.new ≡ with_new_name self.old name) }
        ensures err { OnErr result (self.new ≡ self.old) }
    {
        let key = key_of(name.as_slice());
        if self.names.contains_key(&key) {
            return Ok(());
        }
        self.names.insert(key, name)?;
        Ok(())
    }

    /// The keys, which rise strictly.
    pub(crate) fn keys(&self, alloc: Global) -> Result<HashList, Memory>
        ensures keys { IfOk result (λ keys. keys ≡ keys_in self.now) }
        ensures sorted { IfOk result (λ keys. T (is_sorted key_cmp (as_entries keys))) }
    {
        let mut keys = HashList::with_capacity(alloc, self.names.len() as u64)?;
        for (key, _) in &self.names {
            keys.push(*key)?;
        }
        Ok(keys)
    }

    /// Appends the line of what a snapshot's map says of each name.
    pub(crate) fn write_claims(&self, snapshot: &Snapshot, out: &mut Bytes) -> Result<(), Memory>
        ensures { OnOk result (out.new ≡ out.old ++ named_claim_lines (claims_in snapshot.now.map self.now)) }
    {
        for (key, name) in &self.names {
            write_named_claim(name.as_slice(), snapshot.get(key), out)?;
        }
        Ok(())
    }
}
