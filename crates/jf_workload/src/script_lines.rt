// The lines of a script are answered in turn, and their replies are counted.
ghost use Rattle.std.specs.Prelude.{◌≡◌, ◌≤◌, ◌<◌, ◌+◌, ◌^◌, ◌∷◌, ◌++◌, [], ℕ, List, Option, length, false, IfOk, IfErr, OnOk};
ghost use Rattle.jf_store.specs.Events.{is_marked};
ghost use Rattle.jf_store.specs.Passes.{IsPassOf};
ghost use Rattle.jf_history.specs.Sessions.{HoldsPins, new_session};
ghost use Rattle.jf_generate.specs.Scripts.{max_lines};
ghost use Rattle.jf_generate.specs.Places.{GivesNext};
ghost use Rattle.jf_generate.specs.Reports.{tally_of};
ghost use Rattle.jf_session.specs.Taking.{end_of_stop};
ghost use Rattle.jf_workload.specs.ScriptRuns.{HasTallied, HasRunScript};

use jf_disk::Disk;
use jf_generate::{Generator, ReplyTally};
use jf_join::{Gate, Workers};
use jf_path::{Bytes, Memory};
use jf_session::{Session, Stop};
use jf_store::Store;
use std::alloc::Global;
use std::sync::Wait;
use std::thread::Threads;

/// Answers all lines that a generator still gives, the first of the session, and returns what is kept of their replies.
/// After an error the session is over, and no further line is started.
pub(crate) fn answer_script<D: Disk, H: Threads + Wait + Sync, G: Gate>(
    rt: &H,
    alloc: Global,
    store: &Store<D>,
    session: &mut Session<D>,
    mut script: Generator,
    workers: Workers,
    gate: &G,
) -> Result<ReplyTally, Stop>
    requires own { IsPassOf session.old.pass store.now }
    requires begun { session.old ≡ new_session session.old.pass }
    requires unmarked { is_marked session.old.pass.seen ≡ false }
    requires pins { HoldsPins session.old }
    requires lines { length script ≤ max_lines }
    ensures own { IsPassOf session.new.pass store.now }
    ensures ok { IfOk result (λ kept. HasTallied store.now.start session.old.pass session.new script kept) }
    ensures err { (text : Option (List ℕ)) → IfErr result (λ why. HasRunScript (end_of_stop why) store.now.start script session.old.pass session.new.pass text text) }
{
    let mut tally = ReplyTally::new(alloc);
    let mut line = Bytes::new(alloc);
    let mut reply = Bytes::new(alloc);
    while next_line(&mut script, &mut line)? {
        reply.clear();
        session.step(rt, alloc, store, line.as_slice(), workers, gate, &mut reply)?;
        count_reply(&mut tally, reply.as_slice())?;
    }
    Ok(tally)
}

/// Puts the next line of a script in the place of the line before, and returns whether there was one.
fn next_line(script: &mut Generator, line: &mut Bytes) -> Result<bool, Stop>
    ensures ok { IfOk result (λ there. GivesNext script.old script.new [] line.new there) }
    ensures err { IfErr result (λ why. why ≡ Stop.Memory) }
{
    line.clear();
    match script.next_line(line) {
        Ok(there) => Ok(there),
        Err(Memory) => Err(Stop::Memory),
    }
}

/// Counts the text of one reply more.
fn count_reply(tally: &mut ReplyTally, text: &[u8]) -> Result<(), Stop>
    requires { tally.old.refused + 1 < 2 ^ 64 }
    ensures ok { OnOk result ((texts : List (List ℕ)) → tally.old ≡ tally_of texts → tally.new ≡ tally_of (texts ++ text.now ∷ [])) }
    ensures err { IfErr result (λ why. why ≡ Stop.Memory) }
{
    match tally.add(text) {
        Ok(()) => Ok(()),
        Err(Memory) => Err(Stop::Memory),
    }
}
