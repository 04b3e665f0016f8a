// What is pending is landed on the head, or a fork with its ancestors.
ghost use Rattle.std.specs.Prelude.{IfOk, IfErr};
ghost use Rattle.jf_script.specs.declared.command.Change.TheVariants as change;
ghost use Rattle.jf_script.specs.declared.command.Command.TheVariants as command;
ghost use Rattle.jf_session.specs.Steps.{IsRunningOn, IsObeyed};
ghost use Rattle.jf_session.specs.Telling.{HasLandedPending, LandsNothing};

use crate::refusing::refusal_reply;
use crate::session::Session;
use crate::stop::Stop;
use jf_disk::Disk;
use jf_engine::Landed;
use jf_join::{Gate, Workers};
use jf_path::Memory;
use jf_script::Reply;
use jf_split::Batch;
use jf_store::Store;
use std::alloc::Global;
use std::sync::Wait;
use std::thread::Threads;

impl<D: Disk> Session<D> {
    // Answers `commit`: lands what is pending, after which nothing is.
    pub(crate) fn commit<H: Threads + Wait + Sync, G: Gate>(
        &mut self,
        rt: &H,
        alloc: Global,
        store: &Store<D>,
        workers: Workers,
        gate: &G,
    ) -> Result<Reply, Stop>
        requires { IsRunningOn self.old store.now }
        ensures { IsObeyed store.now.start self.old self.new (command.Change change.Commit) result }
    {
        match self.land_pending(rt, alloc, store, workers, gate) {
            Ok((landed, _)) => {
                let root = landed.root;
                Ok(Reply::Commit {
                    version: landed.version,
                    root,
                })
            }
            Err(refused) => refused,
        }
    }

    // Lands what is pending, after which nothing is, and returns what the landing made and the batch that it landed, which
    // is made before the store is touched. The error is what `commit` answers if nothing was landed: a refusal, or why the
    // session ends.
    pub(crate) fn land_pending<H: Threads + Wait + Sync, G: Gate>(
        &mut self,
        rt: &H,
        alloc: Global,
        store: &Store<D>,
        workers: Workers,
        gate: &G,
    ) -> Result<(Landed, Batch), Result<Reply, Stop>>
        requires { IsRunningOn self.old store.now }
        ensures landed { IfOk result (λ made. HasLandedPending store.now.start self.old self.new made.0 made.1) }
        ensures refused { IfErr result (λ refused. LandsNothing store.now.start self.old self.new (command.Change change.Commit) refused) }
    {
        let batch = match self.pending.batch(alloc) {
            Ok(batch) => batch,
            Err(Memory) => return Err(Err(Stop::Memory)),
        };
        let landed = self.pass.commit(rt, alloc, store, &batch, workers, gate);
        self.pass.know(store);
        match landed {
            Ok(landed) => {
                self.pending.clear();
                Ok((landed, batch))
            }
            Err(fault) => Err(refusal_reply(fault, &mut self.over)),
        }
    }

    // Answers `land`.
    pub(crate) fn land<H: Threads + Wait + Sync, G: Gate>(
        &mut self,
        rt: &H,
        alloc: Global,
        store: &Store<D>,
        id: u64,
        workers: Workers,
        gate: &G,
    ) -> Result<Reply, Stop>
        requires { IsRunningOn self.old store.now }
        ensures { IsObeyed store.now.start self.old self.new (command.Change (change.Land id)) result }
    {
        let landed = self.pass.land(rt, alloc, store, id, workers, gate);
        self.pass.know(store);
        match landed {
            Ok(landed) => {
                let root = landed.root;
                Ok(Reply::Land {
                    version: landed.version,
                    root,
                })
            }
            Err(fault) => refusal_reply(fault, &mut self.over),
        }
    }
}
