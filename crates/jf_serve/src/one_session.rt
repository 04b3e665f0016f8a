// A session runs a whole script over a new pass.
ghost use Rattle.std.specs.Prelude.{◌≡◌, ◌⊎◌, ◌≤◌, ◌++◌, [], length, false, Err, IfErr, OnErr, OnOk};
ghost use Rattle.jf_io.specs.Lines.{lines};
ghost use Rattle.jf_store.specs.Passes.{IsPassOf, new_pass};
ghost use Rattle.jf_answers.specs.Explains.{LineReply};
ghost use Rattle.jf_history.specs.Sessions.{HasDoneNothing, HasReplied, HoldsPins, IsBroken, IsTry, new_session};
ghost use Rattle.jf_session.specs.Taking.{end_of_stop};
ghost use Rattle.jf_serve.specs.Served.{max_output};
ghost use Rattle.jf_serve.specs.Ran.{HasRunSession};

use crate::line::cut_line;
use jf_disk::Disk;
use jf_history::End;
use jf_join::{Gate, Workers};
use jf_path::Bytes;
use jf_session::{Session, Stop};
use jf_store::{Pass, Store};
use std::alloc::Global;
use std::sync::Wait;
use std::thread::Threads;

// The most bytes of a session's output, which is gathered until all sessions have ended.
const MAX_OUTPUT: u64 = 1 << 30;

/// The result of a session: its pass, the text of its replies, and how it ended.
#[derive(Drop)]
pub(crate) struct SessionRan<D: Disk> {
    pub pass: Pass<D>,
    pub text: Bytes,
    pub end: End,
}

/// Runs a script over a new pass of a store, once the gate was notified of the session.
pub(crate) fn run_session<D: Disk, H: Threads + Wait + Sync, G: Gate>(
    rt: &H,
    alloc: Global,
    store: &Store<D>,
    pass: Pass<D>,
    script: &[u8],
    workers: Workers,
    gate: &G,
) -> SessionRan<D>
    requires new { pass ≡ new_pass store.now pass.number }
    ensures ran { HasRunSession store.now pass.number (lines script.now) result.end result.text result.pass }
{
    gate.session(pass.number());
    let mut session = Session::new(alloc, pass);
    session.know_own(store);
    let mut text = Bytes::new(alloc);
    let answered = answer_lines(
        rt,
        alloc,
        store,
        &mut session,
        script,
        workers,
        gate,
        &mut text,
    );
    let pass = session.end();
    match answered {
        Ok(()) => SessionRan {
            pass,
            text,
            end: End::Done,
        },
        Err(why) => SessionRan {
            pass,
            text,
            end: why.end(),
        },
    }
}

/// Answers one line, as `Session::step` does, and ends with `Memory`, too, if the text would be longer than `MAX_OUTPUT`
/// bytes with the reply, which isn't told then.
fn answer_line<D: Disk, H: Threads + Wait + Sync, G: Gate>(
    rt: &H,
    alloc: Global,
    store: &Store<D>,
    session: &mut Session<D>,
    line: &[u8],
    workers: Workers,
    gate: &G,
    text: &mut Bytes,
) -> Result<(), Stop>
    requires own { IsPassOf session.old.pass store.now }
    requires over { session.old.over ≡ false }
    ensures own { IsPassOf session.new.pass store.now }
    ensures ok { OnOk result ((r : LineReply) × HasReplied store.now.start session.old session.new line.now r × (text.new ≡ text.old ++ r.text)) }
    ensures short { OnOk result (length text.new ≤ max_output) }
    ensures goes_on { OnOk result (session.new.over ≡ false) }
    ensures silent { OnErr result (text.new ≡ text.old) }
    ensures fault { result ≡ Err Stop.DiskFault → IsTry store.now.start session.old session.new line.now }
    ensures broken { result ≡ Err Stop.Broken → IsBroken session.old session.new line.now }
    ensures memory { result ≡ Err Stop.Memory → HasDoneNothing session.old session.new line.now ⊎ ((r : LineReply) × HasReplied store.now.start session.old session.new line.now r) }
{
    let told = text.len();
    session.step(rt, alloc, store, line, workers, gate, text)?;
    if text.len() > MAX_OUTPUT {
        text.truncate(told);
        return Err(Stop::Memory);
    }
    Ok(())
}

/// Answers the lines of a script in turn, the first of the session, and appends their replies to an empty text. After an
/// error the session is over, and no further line is started.
fn answer_lines<D: Disk, H: Threads + Wait + Sync, G: Gate>(
    rt: &H,
    alloc: Global,
    store: &Store<D>,
    session: &mut Session<D>,
    script: &[u8],
    workers: Workers,
    gate: &G,
    text: &mut Bytes,
) -> Result<(), Stop>
    requires begun { session.old ≡ new_session (new_pass store.now session.old.pass.number) }
    requires pins { HoldsPins session.old }
    requires empty { text.old ≡ [] }
    ensures ok { OnOk result (HasRunSession store.now session.old.pass.number (lines script.now) End.Done text.new session.new.pass) }
    ensures err { IfErr result (λ why. HasRunSession store.now session.old.pass.number (lines script.now) (end_of_stop why) text.new session.new.pass) }
{
    let mut left = script;
    while let Some((line, rest)) = cut_line(left) {
        answer_line(rt, alloc, store, session, line, workers, gate, text)?;
        left = rest;
    }
    Ok(())
}
