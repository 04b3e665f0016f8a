// A fork is made of what is pending, or dropped.
ghost use Rattle.jf_script.specs.declared.command.Change.TheVariants as change;
ghost use Rattle.jf_script.specs.declared.command.Command.TheVariants as command;
ghost use Rattle.jf_session.specs.Steps.{IsRunningOn, IsObeyed};

use crate::refusing::refusal_reply;
use crate::session::Session;
use crate::stop::Stop;
use jf_disk::Disk;
use jf_model::Parent;
use jf_path::Memory;
use jf_script::Reply;
use jf_store::Store;
use std::alloc::Global;
use std::sync::Wait;

impl<D: Disk> Session<D> {
    // Answers `fork`: makes a fork of what is pending, after which nothing is. Its batch is made before the store is
    // touched.
    pub(crate) fn fork<H: Wait>(
        &mut self,
        rt: &H,
        alloc: Global,
        store: &Store<D>,
        on: Parent,
    ) -> Result<Reply, Stop>
        requires { IsRunningOn self.old store.now }
        ensures { IsObeyed store.now.start self.old self.new (command.Change (change.Fork on)) result }
    {
        let batch = match self.pending.batch(alloc) {
            Ok(batch) => batch,
            Err(Memory) => return Err(Stop::Memory),
        };
        let forked = self.pass.fork(rt, alloc, store, on, &batch);
        self.pass.know(store);
        match forked {
            Ok(forked) => {
                self.pending.clear();
                let root = forked.root;
                Ok(Reply::Fork {
                    id: forked.id,
                    root,
                })
            }
            Err(fault) => refusal_reply(fault, &mut self.over),
        }
    }

    // Answers `drop`.
    pub(crate) fn drop_fork<H: Wait>(
        &mut self,
        rt: &H,
        store: &Store<D>,
        id: u64,
    ) -> Result<Reply, Stop>
        requires { IsRunningOn self.old store.now }
        ensures { IsObeyed store.now.start self.old self.new (command.Change (change.Drop id)) result }
    {
        let dropped = self.pass.drop_fork(rt, store, id);
        self.pass.know(store);
        match dropped {
            Ok(count) => Ok(Reply::Drop { count }),
            Err(fault) => refusal_reply(fault, &mut self.over),
        }
    }
}
