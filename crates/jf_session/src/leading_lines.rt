// A line is done as by `Session::step`; its reply is dropped, and what it lands is written.
ghost use Rattle.std.specs.Prelude.{◌≡◌, ℕ, List, false};
ghost use Rattle.jf_script.specs.Bounds.{IsBoundedCommand};
ghost use Rattle.jf_store.specs.Passes.{IsPassOf};
ghost use Rattle.jf_session.specs.Steps.{IsRunningOn};
ghost use Rattle.jf_session.specs.Telling.{is_landing, IsLedAs, DoesLeading};

use crate::session::Session;
use crate::stop::Stop;
use crate::telling::discard_reply;
use jf_disk::Disk;
use jf_join::{Gate, Workers};
use jf_path::Bytes;
use jf_script::{Change, Command, LineFault, read_line};
use jf_store::Store;
use std::alloc::Global;
use std::sync::Wait;
use std::thread::Threads;

impl<D: Disk> Session<D> {
    // Does what one line asks for, as `Session::step` does, and appends the blocks of what it lands in place of the reply.
    // After an error the session is over, and the text is unchanged. If memory ran out, nothing was done, or the line was
    // done and only its blocks are missing.
    pub(crate) fn lead_line<H: Threads + Wait + Sync, G: Gate>(
        &mut self,
        rt: &H,
        alloc: Global,
        store: &Store<D>,
        line: &[u8],
        workers: Workers,
        gate: &G,
        told: &mut Bytes,
    ) -> Result<(), Stop>
        requires own { IsPassOf self.old.pass store.now }
        requires over { self.old.over ≡ false }
        ensures { DoesLeading self.old line.now told.old result self.new told.new }
    {
        self.know();
        self.know_own(store);
        self.know_events(store);
        let command = match read_line(alloc, line) {
            Ok(command) => command,
            Err(LineFault::Syntax) => return Ok(()),
            Err(LineFault::LineTooLong) => return Ok(()),
            Err(LineFault::Memory) => {
                self.stop();
                return Err(Stop::Memory);
            }
        };
        let led = self.lead_command(rt, alloc, store, command, workers, gate, told);
        self.know_own(store);
        self.know_events(store);
        match led {
            Ok(()) => Ok(()),
            Err(why) => {
                self.stop();
                Err(why)
            }
        }
    }

    // Does a command, and appends the blocks of what it lands.
    fn lead_command<H: Threads + Wait + Sync, G: Gate>(
        &mut self,
        rt: &H,
        alloc: Global,
        store: &Store<D>,
        command: Command,
        workers: Workers,
        gate: &G,
        told: &mut Bytes,
    ) -> Result<(), Stop>
        requires open { IsRunningOn self.old store.now }
        requires bounded { IsBoundedCommand command }
        ensures { IsLedAs store.now.start self.old self.new command told.old told.new result }
    {
        match command {
            Command::Change(Change::Commit) => {
                self.commit_with_blocks(rt, alloc, store, workers, gate, told)
            }
            Command::Change(Change::Land { id }) => {
                self.land_with_blocks(rt, alloc, store, id, workers, gate, told)
            }
            command => self.obey_without_blocks(rt, alloc, store, command, workers, gate),
        }
    }

    // Does a command that lands nothing. Its reply is dropped, and so are the lines that would follow it.
    fn obey_without_blocks<H: Threads + Wait + Sync, G: Gate>(
        &mut self,
        rt: &H,
        alloc: Global,
        store: &Store<D>,
        command: Command,
        workers: Workers,
        gate: &G,
    ) -> Result<(), Stop>
        requires open { IsRunningOn self.old store.now }
        requires bounded { IsBoundedCommand command }
        requires other { is_landing command ≡ false }
        ensures { (told : List ℕ) → IsLedAs store.now.start self.old self.new command told told result }
    {
        self.know_own(store);
        let mut lines = Bytes::new(alloc);
        let done = self.reply_to_command(rt, alloc, store, command, workers, gate, &mut lines);
        self.know_events(store);
        discard_reply(done)
    }
}
