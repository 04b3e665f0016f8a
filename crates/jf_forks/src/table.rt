// The table of forks: all live forks, and the limits on them.
ghost use Rattle.std.specs.Prelude.{◌≡◌, ℕ, true, ◌+◌, ◌^◌, ◌<◌, ◌≤◌, ◌∷◌, ◌++◌, [], length, map, IfOk, IfErr, IfSome, OnOk, OnErr, Some, None, Err};
ghost use Rattle.std.specs.Result.{result_err};
ghost use Rattle.jf_split.specs.Limits.{max_keys};
ghost use Rattle.jf_path.specs.Limits.{max_forks};
ghost use Rattle.jf_hash.specs.Maps.{Map, apply};
ghost use Rattle.jf_hash.specs.Roots.{root};
ghost use Rattle.jf_model.specs.Batches.{key_count};
ghost use Rattle.jf_model.specs.Forks.{batches, chain, drop_count, fork_map, is_among, parent_map};
ghost use Rattle.jf_forks.specs.Tables.{Table, IsTable, StandsOver, forks_of, map_of_fork, fault_of_fork, missing_parent, making_fault, chain_fault, grown_without, grown_settled, RefusesAs};
ghost use Rattle.jf_forks.specs.declared.fault.ForkFault.TheVariants as fault;

use crate::chain::{chain_keys, chain_len, push_chain};
use crate::fault::ForkFault;
use crate::gone::{drop_from, land_from};
use crate::live::{LiveFork, is_live, push_first, tree_of, tree_over};
use jf_hash::Hash;
use jf_model::Parent;
use jf_node::Snapshot;
use jf_path::MAX_FORKS;
use jf_spec::SpecTree;
use jf_split::{Batch, BatchList, MAX_KEYS};
use std::alloc::Global;
use std::marker::Model;

/// A new fork: its number, and the root of its map.
#[derive(Clone, Copy, Debug, PartialEq, Eq)]
pub struct Forked {
    pub id: u64,
    pub root: Hash,
}

/// The live forks, and the number of forks ever made.
#[derive(Drop)]
pub struct ForkTable {
    made: u64,
    live: Vec<LiveFork>,
}

impl Model for ForkTable {
    ghost use Rattle.std.specs.Prelude.{map};
    ghost use Rattle.jf_forks.specs.Tables.{Table, IsTable, table_code};
    ghost use Rattle.jf_forks.specs.Lives.{fork_with_map};

    ghost Value = { Table };

    ghost coded = { table_code };

    ghost view = { λ t. record { made = t.made; live = map fork_with_map t.live.items } };

    ghost invariant = { λ t. IsTable (record { made = t.made; live = map fork_with_map t.live.items }) };
}

impl ForkTable {
    /// A table without forks.
    pub fn new(alloc: Global) -> ForkTable
        // No fork was made yet, and none is live.
        ensures { result ≡ record { made = 0; live = [] } }
    {
        ForkTable {
            made: 0,
            live: Vec::new(alloc),
        }
    }

    /// What holds of each table: parents are the head or older live forks, and at most 1,024 are live.
    pub fn know(&self)
        // Numbers are below `made` and fall along the list; parents are the head or older live forks; at most 1,024 are live.
        ensures { IsTable self.now }
    {
        let _made = self.made;
    }

    /// The number of live forks, at most 1,024.
    pub fn live(&self) -> u64
        ensures { result ≡ length self.now.live }
    {
        self.live.len() as u64
    }

    // Whether a fork is live; if it isn't, why.
    fn find(&self, id: u64) -> Result<(), ForkFault>
        ensures { result_err result ≡ fault_of_fork id self.now }
    {
        if id >= self.made {
            return Err(ForkFault::Unknown);
        }
        if is_live(&self.live, id) {
            Ok(())
        } else {
            Err(ForkFault::Gone)
        }
    }

    /// The tree of a fork: the map that it represents, over the map of the head. It is refused exactly if the fork was
    /// not made yet or is gone.
    pub fn tree(&self, id: u64) -> Result<&SpecTree, ForkFault>
        // It is refused exactly if the fork is missing: `Unknown` if it was not made yet, `Gone` if it is no longer live.
        ensures refused { result_err result ≡ fault_of_fork id self.now }
        // After `Ok`, if the table stands over the head's map, the tree is that map after the batches of the fork's chain.
        ensures map { IfOk result (λ t. (m : Map) → StandsOver m self.now → t.now ≡ fork_map m (forks_of self.now.live) id) }
        // After `Ok` the tree is the one that the table keeps for the fork.
        ensures kept { IfOk result (λ t. map_of_fork id self.now.live ≡ Some t.now) }
    {
        if id >= self.made {
            return Err(ForkFault::Unknown);
        }
        match tree_of(&self.live, id) {
            Some(tree) => Ok(tree),
            None => Err(ForkFault::Gone),
        }
    }

    /// Makes a fork of a batch on the head or on a live fork; `head` is the snapshot of the head. It is refused if the
    /// parent is missing, and then if 1,024 forks are live. After a refusal the table is unchanged.
    pub fn make(
        &mut self,
        alloc: Global,
        head: &Snapshot,
        parent: Parent,
        batch: &Batch,
    ) -> Result<Forked, ForkFault>
        // Fewer than 2^62 forks were made so far.
        requires bounded { self.old.made < 2 ^ 62 }
        // The tree of each live fork is right over the head's map.
        requires over { StandsOver head.now.map self.old }
        // After `Ok` the result is the next number and the root of the parent's map after the batch.
        ensures forked { IfOk result (λ f. f ≡ record { id = self.old.made; root = root (apply (parent_map head.now.map (forks_of self.old.live) parent) batch.now) }) }
        // After `Ok` the new fork is the first of the live ones, with the parent's map after the batch; the others stay.
        ensures ok { OnOk result (self.new ≡ record { made = self.old.made + 1; live = record { fork = record { id = self.old.made; parent = parent; batch = batch.now }; map = apply (parent_map head.now.map (forks_of self.old.live) parent) batch.now } ∷ self.old.live }) }
        // After `Ok` the table stands over the head's map as before.
        ensures stands { OnOk result (StandsOver head.now.map self.new) }
        // It is refused if the parent is missing, else as `Full` if 1,024 are live; else only if memory runs out.
        ensures refused { RefusesAs (making_fault parent self.old) result }
        // After a refusal the table is unchanged.
        ensures err { OnErr result (self.new ≡ self.old) }
    {
        if let Some(fault) = self.making_fault(parent) {
            return Err(fault);
        }
        let tree = tree_over(alloc, &self.live, head, parent, batch)?;
        let batch = batch.copy(alloc)?;
        let forked = Forked {
            id: self.made,
            root: tree.root(),
        };
        let fork = LiveFork {
            id: self.made,
            parent,
            batch,
            tree,
        };
        push_first(&mut self.live, fork)?;
        self.made += 1;
        Ok(forked)
    }

    // Why no fork can be made on a parent, if none can.
    fn making_fault(&self, parent: Parent) -> Option<ForkFault>
        ensures { result ≡ making_fault parent self.now }
    {
        if let Parent::Fork(id) = parent {
            if let Err(fault) = self.find(id) {
                return Some(fault);
            }
        }
        if self.live.len() as u64 >= MAX_FORKS {
            Some(ForkFault::Full)
        } else {
            None
        }
    }

    /// The batches of a fork and its live ancestors, the oldest first: 1 to 1,024, with at most 10,000 keys added up.
    /// It is refused if the fork is missing, and then if they have more keys.
    pub fn chain(&self, alloc: Global, id: u64) -> Result<BatchList, ForkFault>
        // After `Ok` the list has the batches of the fork and its live ancestors, the oldest first.
        ensures chain { IfOk result (λ list. list ≡ batches (chain (forks_of self.now.live) id)) }
        // After `Ok` the fork is live, and its chain has at most 10,000 keys.
        ensures may { OnOk result (chain_fault id self.now ≡ None) }
        // After `Ok` there are 1 to 1,024 batches, with at most 10,000 keys added up.
        ensures bounded { IfOk result (λ list. (1 ≤ length list) × (length list ≤ max_forks) × (key_count list ≤ max_keys)) }
        // It is refused if the fork is missing, else as `TooMany` over 10,000 keys; else only if memory runs out.
        ensures refused { RefusesAs (chain_fault id self.now) result }
    {
        if let Some(fault) = self.chain_fault(id) {
            return Err(fault);
        }
        let mut list = BatchList::new(alloc);
        push_chain(alloc, &self.live, id, &mut list)?;
        Ok(list)
    }

    /// How many batches `chain` gives, at most 1,024. It is refused as `chain` is, and takes no memory.
    pub fn chain_len(&self, id: u64) -> Result<u64, ForkFault>
        // After `Ok` the result is how many the fork and its live ancestors are.
        ensures length { IfOk result (λ n. n ≡ length (batches (chain (forks_of self.now.live) id))) }
        // After `Ok` the result is at most 1,024.
        ensures bounded { IfOk result (λ n. n ≤ max_forks) }
        // It is refused exactly if the fork is missing or its chain has more than 10,000 keys.
        ensures refused { result_err result ≡ chain_fault id self.now }
    {
        match self.chain_fault(id) {
            Some(fault) => Err(fault),
            None => Ok(chain_len(&self.live, id)),
        }
    }

    // Why a fork can't land with its ancestors, if it can't.
    fn chain_fault(&self, id: u64) -> Option<ForkFault>
        ensures { result ≡ chain_fault id self.now }
    {
        if let Err(fault) = self.find(id) {
            return Some(fault);
        }
        let keys = chain_keys(&self.live, id);
        if keys > MAX_KEYS as u64 {
            Some(ForkFault::TooMany(keys))
        } else {
            None
        }
    }

    /// Drops a fork and those that stand on it. Returns how many are gone. It is refused exactly if the fork is
    /// missing; the table is then unchanged.
    pub fn drop_fork(&mut self, id: u64) -> Result<u64, ForkFault>
        // It is refused exactly if the fork is missing, as `Unknown` or `Gone`.
        ensures refused { result_err result ≡ fault_of_fork id self.old }
        // After `Ok` the result is the number of forks that were dropped: the fork itself and those that stand on it.
        ensures count { IfOk result (λ n. n ≡ drop_count id (forks_of self.old.live)) }
        // After `Ok` all other forks stay as they are, and so does the number of forks made.
        ensures ok { OnOk result (self.new ≡ record { made = self.old.made; live = grown_without id self.old.live }) }
        // If the table stood over a map of the head, it still does.
        ensures stands { (m : Map) → StandsOver m self.old → StandsOver m self.new }
        // Each fork that is still live has the map that it had.
        ensures maps { (y : ℕ) → is_among y (forks_of self.new.live) ≡ true → map_of_fork y self.new.live ≡ map_of_fork y self.old.live }
        // After a refusal the table is unchanged.
        ensures err { OnErr result (self.new ≡ self.old) }
    {
        if let Err(fault) = self.find(id) {
            return Err(fault);
        }
        Ok(drop_from(&mut self.live, 0, id))
    }

    /// Lets a fork land, with its ancestors: those that stand on it stay, its children on the head. Without a fork,
    /// after a batch landed directly, no fork stays. The fork must be one that `chain` doesn't refuse, unless it is out
    /// of memory.
    pub fn settle(&mut self, fork: Option<u64>)
        // If a fork lands, it is live and its chain has at most 10,000 keys.
        requires { IfSome fork (λ id. chain_fault id self.old ≡ None) }
        // Without a fork, none stays; the number of forks made is unchanged.
        ensures unforked { fork ≡ None → self.new ≡ record { made = self.old.made; live = [] } }
        // If a fork lands, exactly those that stand on it stay, its children now on the head.
        ensures found { (id : ℕ) → fork ≡ Some id → self.new ≡ record { made = self.old.made; live = grown_settled id self.old.live } }
        // Each fork that is still live has the map that it had.
        ensures maps { (y : ℕ) → is_among y (forks_of self.new.live) ≡ true → map_of_fork y self.new.live ≡ map_of_fork y self.old.live }
        // If the table stood over a map of the head and a fork lands, it now stands over the map of that fork.
        ensures stands { (m : Map) (id : ℕ) → fork ≡ Some id → StandsOver m self.old → StandsOver (fork_map m (forks_of self.old.live) id) self.new }
    {
        match fork {
            None => self.live.clear(),
            Some(id) => land_from(&mut self.live, 0, id),
        }
    }
}
