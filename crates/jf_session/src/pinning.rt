// A version is pinned, or a place is freed.
ghost use Rattle.jf_script.specs.declared.command.Command.TheVariants as command;
ghost use Rattle.jf_script.specs.declared.command.OwnCommand.TheVariants as own_command;
ghost use Rattle.jf_session.specs.Steps.{IsRunningOn, IsObeyed};

use crate::refusing::refusal_reply;
use crate::session::Session;
use crate::stop::Stop;
use jf_disk::Disk;
use jf_script::{Refusal, Reply};
use jf_store::Store;
use std::sync::Wait;

impl<D: Disk> Session<D> {
    // Answers `pin`.
    pub(crate) fn pin<H: Wait>(
        &mut self,
        rt: &H,
        store: &Store<D>,
        version: u64,
    ) -> Result<Reply, Stop>
        requires { IsRunningOn self.old store.now }
        ensures { IsObeyed store.now.start self.old self.new (command.Pin version) result }
    {
        let pinned = self.pass.pin_version(rt, store, version);
        self.pass.know(store);
        match pinned {
            Ok(place) => Ok(Reply::Pin { place }),
            Err(fault) => refusal_reply(fault, &mut self.over),
        }
    }

    // Answers `unpin`. It waits for nobody.
    pub(crate) fn unpin(&mut self, store: &Store<D>, place: u64) -> Result<Reply, Stop>
        requires { IsRunningOn self.old store.now }
        ensures { IsObeyed store.now.start self.old self.new (command.Own (own_command.Unpin place)) result }
    {
        let Some(version) = self.pass.unpin(store, place) else {
            return Ok(Reply::No(Refusal::NoPin));
        };
        Ok(Reply::Unpin { version })
    }
}
