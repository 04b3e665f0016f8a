// The commands that give an entry: each is done by a call of its own.
ghost use Rattle.jf_script.specs.declared.command.Command.TheVariants as command;
ghost use Rattle.jf_session.specs.Steps.{IsRunningOn, IsObeyed};

use crate::session::Session;
use crate::stop::Stop;
use jf_disk::Disk;
use jf_join::{Gate, Workers};
use jf_script::{Change, Reply};
use jf_store::Store;
use std::alloc::Global;
use std::sync::Wait;
use std::thread::Threads;

impl<D: Disk> Session<D> {
    // Answers a command that gives an entry.
    pub(crate) fn change<H: Threads + Wait + Sync, G: Gate>(
        &mut self,
        rt: &H,
        alloc: Global,
        store: &Store<D>,
        change: Change,
        workers: Workers,
        gate: &G,
    ) -> Result<Reply, Stop>
        requires { IsRunningOn self.old store.now }
        ensures { IsObeyed store.now.start self.old self.new (command.Change change) result }
    {
        match change {
            Change::Commit => self.commit(rt, alloc, store, workers, gate),
            Change::Fork { on } => self.fork(rt, alloc, store, on),
            Change::Land { id } => self.land(rt, alloc, store, id, workers, gate),
            Change::Drop { id } => self.drop_fork(rt, store, id),
            Change::Prune { upto } => self.prune(rt, store, upto),
            Change::Compact => self.compact(rt, alloc, store),
        }
    }
}
