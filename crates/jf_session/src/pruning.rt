// Versions are retired.
ghost use Rattle.jf_script.specs.declared.command.Change.TheVariants as change;
ghost use Rattle.jf_script.specs.declared.command.Command.TheVariants as command;
ghost use Rattle.jf_session.specs.Steps.{IsRunningOn, IsObeyed};

use crate::refusing::refusal_reply;
use crate::session::Session;
use crate::stop::Stop;
use jf_disk::Disk;
use jf_script::Reply;
use jf_store::Store;
use std::sync::Wait;

impl<D: Disk> Session<D> {
    // Answers `prune`.
    pub(crate) fn prune<H: Wait>(
        &mut self,
        rt: &H,
        store: &Store<D>,
        upto: u64,
    ) -> Result<Reply, Stop>
        requires { IsRunningOn self.old store.now }
        ensures { IsObeyed store.now.start self.old self.new (command.Change (change.Prune upto)) result }
    {
        self.pass.know_pins(store);
        let pruned = self.pass.prune(rt, store, upto);
        self.pass.know(store);
        match pruned {
            Ok(pruned) => Ok(Reply::Prune {
                bound: pruned.bound,
                floor: pruned.floor,
            }),
            Err(fault) => refusal_reply(fault, &mut self.over),
        }
    }
}
