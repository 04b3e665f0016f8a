// A landing is written as its blocks, in place of its reply.
ghost use Rattle.std.specs.Prelude.{◌≡◌, ◌+◌, ◌-◌, ◌<◌, ◌≤◌, ◌^◌, ◌++◌, length, OnOk, OnErr, IfErr};
ghost use Rattle.std.specs.List.{AllByRecursion};
ghost use Rattle.jf_text.specs.Words.{Extends};
ghost use Rattle.jf_lead.specs.Landings.{landing_text, landings_text};
ghost use Rattle.jf_lead.specs.Laws.{IsLandingBlock};
ghost use Rattle.jf_script.specs.declared.command.Change.TheVariants as change;
ghost use Rattle.jf_script.specs.declared.command.Command.TheVariants as command;
ghost use Rattle.jf_session.specs.Steps.{IsRunningOn};
ghost use Rattle.jf_session.specs.Telling.{rooted_blocks, chain_blocks, without_reply, IsLedAs};

use crate::refusing::refusal_reply;
use crate::session::Session;
use crate::stop::Stop;
use jf_disk::Disk;
use jf_hash::Hash;
use jf_join::{Gate, Workers};
use jf_lead::{know_landing, write_landing};
use jf_path::{Bytes, Memory};
use jf_script::Reply;
use jf_split::Batch;
use jf_store::{LandedChain, Store};
use std::alloc::Global;
use std::sync::Wait;
use std::thread::Threads;

impl<D: Disk> Session<D> {
    // Does `commit` as `Session::commit` does, and appends the block of the version that landed in place of a reply. If
    // memory runs out for the block, the landing stands.
    pub(crate) fn commit_with_blocks<H: Threads + Wait + Sync, G: Gate>(
        &mut self,
        rt: &H,
        alloc: Global,
        store: &Store<D>,
        workers: Workers,
        gate: &G,
        told: &mut Bytes,
    ) -> Result<(), Stop>
        requires { IsRunningOn self.old store.now }
        ensures { IsLedAs store.now.start self.old self.new (command.Change change.Commit) told.old told.new result }
    {
        match self.land_pending(rt, alloc, store, workers, gate) {
            Ok((landed, batch)) => {
                let root = landed.root;
                tell_block(landed.version, &root, &batch, told)
            }
            Err(refused) => discard_reply(refused),
        }
    }

    // Does `land` as `Session::land` does, and appends the blocks of the versions that landed in place of a reply. If
    // memory runs out for the blocks, the landing stands.
    pub(crate) fn land_with_blocks<H: Threads + Wait + Sync, G: Gate>(
        &mut self,
        rt: &H,
        alloc: Global,
        store: &Store<D>,
        id: u64,
        workers: Workers,
        gate: &G,
        told: &mut Bytes,
    ) -> Result<(), Stop>
        requires { IsRunningOn self.old store.now }
        ensures { IsLedAs store.now.start self.old self.new (command.Change (change.Land id)) told.old told.new result }
    {
        let landed = self.pass.land_chain(rt, alloc, store, id, workers, gate);
        self.pass.know(store);
        match landed {
            Ok(chain) => tell_chain(&chain, told),
            Err(fault) => discard_reply(refusal_reply(fault, &mut self.over)),
        }
    }
}

// Drops a reply: what it is a reply to landed nothing.
pub(crate) fn discard_reply(replied: Result<Reply, Stop>) -> Result<(), Stop>
    ensures { result ≡ without_reply replied }
{
    match replied {
        Ok(_) => Ok(()),
        Err(why) => Err(why),
    }
}

// Appends the block of a version. If memory runs out, the text is unchanged.
fn tell_block(version: u64, root: &Hash, batch: &Batch, told: &mut Bytes) -> Result<(), Stop>
    ensures sound { IsLandingBlock (record { version = version; root = root.now; batch = batch.now }) }
    ensures ok { OnOk result (told.new ≡ told.old ++ landing_text version root.now batch.now) }
    ensures err { IfErr result (λ why. (why ≡ Stop.Memory) × (told.new ≡ told.old)) }
{
    know_landing(version, root, batch);
    match write_landing(version, root, batch, told) {
        Ok(()) => Ok(()),
        Err(Memory) => Err(Stop::Memory),
    }
}

// Appends the blocks of a fork that was landed with its ancestors, the oldest first. If memory runs out, the text is
// unchanged.
fn tell_chain(chain: &LandedChain, told: &mut Bytes) -> Result<(), Stop>
    requires long { length chain.now.roots ≡ length chain.now.batches }
    requires bounded { length chain.now.batches ≤ chain.now.landed.version }
    ensures sound { AllByRecursion IsLandingBlock (chain_blocks chain.now) }
    ensures ok { OnOk result (told.new ≡ told.old ++ landings_text (chain_blocks chain.now)) }
    ensures err { IfErr result (λ why. (why ≡ Stop.Memory) × (told.new ≡ told.old)) }
{
    let batches = chain.batches.as_slice();
    let roots = chain.roots.as_slice();
    let version = chain.landed.version - chain.batches.len();
    know_blocks(version, batches, roots);
    let before = told.len();
    match write_blocks(version, batches, roots, told) {
        Ok(()) => Ok(()),
        Err(Memory) => {
            told.truncate(before);
            Err(Stop::Memory)
        }
    }
}

// Appends the blocks of batches whose maps have these roots, from the version after this one on.
fn write_blocks(
    version: u64,
    batches: &[Batch],
    roots: &[Hash],
    told: &mut Bytes,
) -> Result<(), Memory>
    requires long { length roots.now ≡ length batches.now }
    requires bounded { version + length batches.now < 2 ^ 64 }
    ensures ok { OnOk result (told.new ≡ told.old ++ landings_text (rooted_blocks version batches.now roots.now)) }
    ensures err { OnErr result (Extends told.old told.new) }
{
    for (at, batch) in batches.iter().enumerate() {
        write_landing(version + at as u64 + 1, &roots[at], batch, told)?;
    }
    Ok(())
}

// These blocks can be written: for proofs.
fn know_blocks(version: u64, batches: &[Batch], roots: &[Hash])
    requires long { length roots.now ≡ length batches.now }
    requires bounded { version + length batches.now < 2 ^ 64 }
    ensures { AllByRecursion IsLandingBlock (rooted_blocks version batches.now roots.now) }
{
    for (at, batch) in batches.iter().enumerate() {
        know_landing(version + at as u64 + 1, &roots[at], batch);
    }
}
