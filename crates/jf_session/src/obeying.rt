// A line is read as a command, and each command is done by a call of its own.
ghost use Rattle.std.specs.Prelude.{◌≡◌, ℕ, ◌++◌, List, IfOk, IfErr, OnOk, false};
ghost use Rattle.jf_script.specs.Bounds.{IsBoundedCommand};
ghost use Rattle.jf_session.specs.Answering.{IsRepliedBy, StopsAt};
ghost use Rattle.jf_session.specs.Steps.{IsRunningOn, IsObeyedWith};

use crate::session::Session;
use crate::stop::Stop;
use jf_disk::Disk;
use jf_join::{Gate, Workers};
use jf_path::Bytes;
use jf_script::{Command, LineFault, Refusal, Reply, read_line};
use jf_store::Store;
use std::alloc::Global;
use std::sync::Wait;
use std::thread::Threads;

impl<D: Disk> Session<D> {
    // Does a line, and returns the reply to it. The lines that follow the reply, if there are any, are appended to `block`.
    pub(crate) fn reply_to_line<H: Threads + Wait + Sync, G: Gate>(
        &mut self,
        rt: &H,
        alloc: Global,
        store: &Store<D>,
        line: &[u8],
        workers: Workers,
        gate: &G,
        block: &mut Bytes,
    ) -> Result<Reply, Stop>
        requires { IsRunningOn self.old store.now }
        ensures ok { IfOk result (λ r. (text : List ℕ) × (block.new ≡ block.old ++ text) × IsRepliedBy store.now.start self.old self.new line.now r text) }
        ensures goes_on { OnOk result (self.new.over ≡ false) }
        ensures err { IfErr result (λ why. StopsAt store.now.start self.old self.new line.now why) }
    {
        self.know();
        self.know_own(store);
        let command = match read_line(alloc, line) {
            Ok(command) => command,
            Err(LineFault::Syntax) => return Ok(Reply::No(Refusal::Syntax)),
            Err(LineFault::LineTooLong) => return Ok(Reply::No(Refusal::Long)),
            Err(LineFault::Memory) => return Err(Stop::Memory),
        };
        let done = self.reply_to_command(rt, alloc, store, command, workers, gate, block);
        self.know_own(store);
        done
    }

    // Does a command, and returns the reply to it. The lines that follow the reply, if there are any, are appended to
    // `block`.
    pub(crate) fn reply_to_command<H: Threads + Wait + Sync, G: Gate>(
        &mut self,
        rt: &H,
        alloc: Global,
        store: &Store<D>,
        command: Command,
        workers: Workers,
        gate: &G,
        block: &mut Bytes,
    ) -> Result<Reply, Stop>
        requires open { IsRunningOn self.old store.now }
        requires bounded { IsBoundedCommand command }
        ensures { IsObeyedWith store.now.start self.old self.new command block.old block.new result }
    {
        match command {
            Command::Own(own) => self.own_command(alloc, store, own),
            Command::Read { base, question } => {
                self.read(rt, alloc, store, base, question, block)
            }
            Command::ReadFork { id, question } => self.read_fork(rt, alloc, store, id, question),
            Command::Look => self.status(rt, store),
            Command::Pin { version } => self.pin(rt, store, version),
            Command::Change(change) => self.change(rt, alloc, store, change, workers, gate),
        }
    }
}
