// A new generation is written.
ghost use Rattle.jf_script.specs.declared.command.Change.TheVariants as change;
ghost use Rattle.jf_script.specs.declared.command.Command.TheVariants as command;
ghost use Rattle.jf_session.specs.Steps.{IsRunningOn, IsObeyed};

use crate::refusing::refusal_reply;
use crate::session::Session;
use crate::stop::Stop;
use jf_disk::Disk;
use jf_script::Reply;
use jf_store::Store;
use std::alloc::Global;
use std::sync::Wait;

impl<D: Disk> Session<D> {
    // Answers `compact`.
    pub(crate) fn compact<H: Wait>(
        &mut self,
        rt: &H,
        alloc: Global,
        store: &Store<D>,
    ) -> Result<Reply, Stop>
        requires { IsRunningOn self.old store.now }
        ensures { IsObeyed store.now.start self.old self.new (command.Change change.Compact) result }
    {
        let compacted = self.pass.compact(rt, alloc, store);
        self.pass.know(store);
        match compacted {
            Ok(generation) => Ok(Reply::Compact { generation }),
            Err(fault) => refusal_reply(fault, &mut self.over),
        }
    }
}
