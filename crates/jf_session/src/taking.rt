// A session as a machine that takes lines.
ghost use Rattle.std.specs.Prelude.{◌≡◌, false};
ghost use Rattle.jf_store.specs.Passes.{IsPassOf};
ghost use Rattle.jf_history.specs.Sessions.{Session};
ghost use Rattle.jf_session.specs.Taking.{DoesLine};

use crate::quiet::is_quiet;
use crate::session::Session;
use crate::stop::Stop;
use jf_disk::Disk;
use jf_input::{AtHand, LineMachine};
use jf_join::{Gate, Workers};
use jf_path::Bytes;
use jf_store::Store;
use std::alloc::Global;
use std::sync::Wait;
use std::thread::Threads;

// What clauses see as a session.
pub(crate) trait Shows {
    ghost shown: { Self → Session };
}

impl<D: Disk> Shows for Session<D> {
    ghost shown = { λ s. s };
}

// A session, and the call that does a line. A method of a trait can't make that call by its name: what it sends to threads
// is of types of which only a bound says that they may be sent.
pub(crate) struct Taking<T, F> {
    pub(crate) session: T,
    pub(crate) step: F,
}

impl<T: Shows, F: Fn(&mut T, &[u8], &[u8], &mut Bytes) -> Result<(), Stop>> LineMachine
    for Taking<T, F> {
    ghost use Rattle.jf_store.specs.Passes.{Store};
    ghost use Rattle.jf_session.specs.Taking.{MayStep, DoesLine, AnswersLine, AnswersEnd, StaysQuiet};

    type Stop = Stop;

    ghost ready = { λ t. (store : Store) × MayStep DoesLine store T.shown t.session (F.pre t.step) (F.post t.step) };

    ghost takes = { λ t line next r. AnswersLine (T.shown t.session) line (T.shown next.session) r };

    ghost ends = { λ t next r. AnswersEnd (T.shown t.session) (T.shown next.session) r };

    ghost quiet = { λ t next. StaysQuiet (T.shown t.session) (T.shown next.session) };

    fn is_quiet(&self, line: &[u8]) -> bool {
        is_quiet(line)
    }

    fn take_line(&mut self, _alloc: Global, next: AtHand, out: &mut Bytes) -> Result<(), Stop> {
        (self.step)(&mut self.session, next.line, next.after, out)
    }

    fn take_end(&mut self, _alloc: Global, _out: &mut Bytes) -> Result<(), Stop> {
        Ok(())
    }
}

// Does a line, and appends the reply.
pub(crate) fn answer_line<D: Disk, H: Threads + Wait + Sync, G: Gate>(
    rt: &H,
    alloc: Global,
    store: &Store<D>,
    session: &mut Session<D>,
    line: &[u8],
    workers: Workers,
    gate: &G,
    out: &mut Bytes,
) -> Result<(), Stop>
    requires own { IsPassOf session.old.pass store.now }
    requires over { session.old.over ≡ false }
    ensures { DoesLine session.old line.now out.old result session.new out.new }
{
    let stepped = session.step(rt, alloc, store, line, workers, gate, out);
    session.know_events(store);
    stepped
}
