// The command that tells the numbers of the store.
ghost use Rattle.std.specs.Prelude.{◌≡◌, false};
ghost use Rattle.jf_hash.specs.Maps.{Batch};
ghost use Rattle.jf_script.specs.declared.command.Command.TheVariants as command;
ghost use Rattle.jf_store.specs.Passes.{IsPassOf};
ghost use Rattle.jf_session.specs.Steps.{session_of, IsSoundSession, IsRunningOn, IsObeyed};

use crate::refusing::refusal_reply;
use crate::session::Session;
use crate::stop::Stop;
use jf_disk::Disk;
use jf_script::Reply;
use jf_store::{Look, Pass, Store};
use std::sync::Wait;

// Answers `status`, for a session with this pass.
fn numbers_of<D: Disk, H: Wait>(
    pass: &mut Pass<D>,
    over: &mut bool,
    rt: &H,
    store: &Store<D>,
) -> Result<Reply, Stop>
    requires own { IsPassOf pass.old store.now }
    requires over { over.old ≡ false }
    ensures sound { (pending : Batch) → IsSoundSession (session_of pass.old pending over.old) → IsSoundSession (session_of pass.new pending over.new) }
    ensures obeyed { (pending : Batch) → IsObeyed store.now.start (session_of pass.old pending over.old) (session_of pass.new pending over.new) command.Look result }
{
    match pass.look(rt, store) {
        Ok(look) => Ok(status_reply(&look)),
        Err(fault) => refusal_reply(fault, over),
    }
}

impl<D: Disk> Session<D> {
    // Answers `status`.
    pub(crate) fn status<H: Wait>(&mut self, rt: &H, store: &Store<D>) -> Result<Reply, Stop>
        requires { IsRunningOn self.old store.now }
        ensures { IsObeyed store.now.start self.old self.new command.Look result }
    {
        numbers_of(&mut self.pass, &mut self.over, rt, store)
    }
}

// The reply with the numbers that a look found.
fn status_reply(look: &Look) -> Reply
    ensures { result ≡ Reply.Status look.now.state.base look.now.state.floor look.now.retired look.now.state.head look.now.state.kept look.now.forks look.now.state.generation }
{
    Reply::Status {
        base: look.state.base,
        floor: look.state.floor,
        retired: look.retired,
        head: look.state.head,
        kept: look.state.kept,
        forks: look.forks,
        generation: look.state.generation,
    }
}
