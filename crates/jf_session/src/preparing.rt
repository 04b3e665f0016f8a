// A session that prepares replies to lines at hand, and has puts at hand read.
ghost use Rattle.std.specs.Prelude.{◌≡◌, ◌++◌, ℕ, List, length, Ok, None, IfSome, IsTrue, false};
ghost use Rattle.jf_store.specs.Passes.{IsPassOf};
ghost use Rattle.jf_script.specs.Bounds.{IsBoundedQuestion};
ghost use Rattle.jf_session.specs.PreparedReplies.{AsksHead};
ghost use Rattle.jf_session.specs.Steps.{IsRunningOn};
ghost use Rattle.jf_session.specs.Taking.{DoesLine};

use crate::ahead::{prepare_run, question_ahead};
use crate::session::Session;
use crate::stop::Stop;
use crate::taking::{Shows, answer_line};
use jf_disk::Disk;
use jf_join::{Gate, Workers};
use jf_path::{Bytes, Key, Memory};
use jf_prepare::{PreparedLines, begins_put, front_without_puts, read_puts};
use jf_script::Question;
use jf_store::{Pass, Store};
use std::alloc::Global;
use std::marker::Model;
use std::sync::Wait;
use std::thread::Threads;

// A session, and what was made of lines that may come next: replies, each made over all that the session's pass has seen, and
// puts that were read.
pub(crate) struct Preparing<D: Disk> {
    session: Session<D>,
    replies: PreparedLines,
    // the puts that come next, and those after them, the last first
    puts: PreparedLines,
    later: Vec<PreparedLines>,
    // so many bytes of the lines at hand were looked at
    looked_at: usize,
}

impl<D: Disk> Model for Preparing<D> {
    ghost use Rattle.std.specs.Coded.{codes};
    ghost use Rattle.jf_hash.specs.Codes.{map_code};
    ghost use Rattle.jf_history.specs.Sessions.{Session};
    ghost use Rattle.std.specs.List.{AllByRecursion};
    ghost use Rattle.jf_prepare.specs.PreparedPuts.{ArePuts};
    ghost use Rattle.jf_session.specs.PreparedReplies.{ArePreparedAt};

    ghost Value = { Session };

    ghost coded = { Prim.hlevel (codes, map_code) };

    ghost view = { λ p. p.session };

    ghost invariant = { λ p. ArePreparedAt p.session.pass p.replies × ArePuts p.puts × AllByRecursion ArePuts p.later.items };
}

impl<D: Disk> Shows for Preparing<D> {
    ghost shown = { λ s. s };
}

impl<D: Disk> Preparing<D> {
    // A session for which nothing is prepared.
    pub(crate) fn new(alloc: Global, session: Session<D>) -> Preparing<D>
        ensures { result ≡ session }
    {
        Preparing {
            session,
            replies: PreparedLines::new(alloc),
            puts: PreparedLines::new(alloc),
            later: Vec::new(alloc),
            looked_at: 0,
        }
    }

    // Ends the session, and hands back its pass.
    pub(crate) fn end(self) -> Pass<D>
        ensures { result ≡ self.pass }
    {
        let Preparing {
            session,
            replies: _,
            puts: _,
            later: _,
            looked_at: _,
        } = self;
        session.end()
    }

    // Appends the reply to a line, if it is the next that was prepared and there is memory for it.
    fn take_prepared(&mut self, store: &Store<D>, line: &[u8], out: &mut Bytes) -> bool
        requires { IsRunningOn self.old store.now }
        ensures taken { IsTrue result → DoesLine self.old line.now out.old (Ok tt) self.new out.new }
        ensures other { result ≡ false → (self.new ≡ self.old) × (out.new ≡ out.old) }
    {
        self.session.know();
        self.session.know_own(store);
        self.session.know_events(store);
        let Some((prepared_line, text)) = self.replies.first() else {
            return false;
        };
        if prepared_line != line {
            return false;
        }
        match out.append(text) {
            Ok(()) => {
                self.replies.drop_first();
                true
            }
            Err(Memory) => false,
        }
    }

    // Goes on to the puts of the next part, if none is left of this one. What the last part took is given back.
    fn next_puts(&mut self, alloc: Global)
        ensures { self.new ≡ self.old }
    {
        if self.puts.first().is_some() {
            return;
        }
        match self.later.pop() {
            Some(puts) => {
                self.puts = puts;
            }
            None => {
                self.puts = PreparedLines::new(alloc);
            }
        }
    }

    // Does a line, and appends the reply, if it is the next put that was read; `None` if it isn't.
    fn take_put(
        &mut self,
        alloc: Global,
        store: &Store<D>,
        line: &[u8],
        out: &mut Bytes,
    ) -> Option<Result<(), Stop>>
        requires { IsRunningOn self.old store.now }
        ensures found { IfSome result (λ done. DoesLine self.old line.now out.old done self.new out.new) }
        ensures none { result ≡ None → (self.new ≡ self.old) × (out.new ≡ out.old) }
    {
        self.next_puts(alloc);
        let (read_before, text) = self.puts.first()?;
        if read_before != line {
            return None;
        }
        let (key, value) = key_and_value(text)?;
        self.replies = PreparedLines::new(alloc);
        let done = self.session.step_put(alloc, store, key, value, out);
        self.puts.drop_first();
        Some(done)
    }

    // If a line is a put, has the puts among the lines after it read by several workers, if there are many. No line is looked
    // at twice for that, whatever is found, and also if memory runs out.
    fn read_ahead<H: Threads + Sync>(
        &mut self,
        rt: &H,
        alloc: Global,
        line: &[u8],
        after: &[u8],
        workers: Workers,
    )
        ensures { self.new ≡ self.old }
    {
        if workers.is_one() || self.looked_at > 0 || !begins_put(line) {
            return;
        }
        if let Some(looked_at) = front_without_puts(after) {
            self.looked_at = looked_at;
            return;
        }
        self.looked_at = after.len();
        if let Ok(later) = read_puts(rt, alloc, after, workers) {
            self.puts = PreparedLines::new(alloc);
            self.later = later;
        }
    }

    // A line is taken, so that one fewer of those that were looked at is at hand. Of a line that is too long only a front is
    // seen.
    fn pass_line(&mut self, line: &[u8], after: &[u8])
        ensures { self.new ≡ self.old }
    {
        let rest = self.looked_at.saturating_sub(line.len().saturating_add(1));
        self.looked_at = rest.min(after.len());
    }

    // Answers a line that asks a question of the head, and prepares the replies to lines after it by the same look.
    fn answer_ahead<H: Threads + Wait + Sync>(
        &mut self,
        rt: &H,
        alloc: Global,
        store: &Store<D>,
        question: Question,
        after: &[u8],
        workers: Workers,
        out: &mut Bytes,
    ) -> Result<(), Stop>
        requires open { IsRunningOn self.old store.now }
        requires bounded { IsBoundedQuestion question }
        ensures { (line : List ℕ) → AsksHead line question → DoesLine self.old line out.old result self.new out.new }
    {
        self.replies = PreparedLines::new(alloc);
        match self.session.answer_by_look(rt, alloc, store, question, out) {
            Ok(look) => {
                let seen = self.session.seen_count();
                self.replies = prepare_run(rt, alloc, &look.head, seen, after, workers);
                Ok(())
            }
            Err(why) => Err(why),
        }
    }
}

// The key in front of a text, and the value after it.
fn key_and_value(text: &[u8]) -> Option<(&Key, &[u8])>
    ensures long { IfSome result (λ both. length both.0.now ≡ 32) }
    ensures both { IfSome result (λ both. text.now ≡ both.0.now ++ both.1.now) }
{
    text.split_first_chunk::<32>()
}

// Does a line, and appends the reply. If the line reads the head, and so do many after it, the replies to those are prepared; and
// if it is a put, as most of many after it are, those are read by several workers.
pub(crate) fn attend<D: Disk, H: Threads + Wait + Sync, G: Gate>(
    rt: &H,
    alloc: Global,
    store: &Store<D>,
    session: &mut Preparing<D>,
    line: &[u8],
    after: &[u8],
    workers: Workers,
    gate: &G,
    out: &mut Bytes,
) -> Result<(), Stop>
    requires own { IsPassOf session.old.pass store.now }
    requires over { session.old.over ≡ false }
    ensures { DoesLine session.old line.now out.old result session.new out.new }
{
    session.pass_line(line, after);
    if session.take_prepared(store, line, out) {
        return Ok(());
    }
    if let Some(done) = session.take_put(alloc, store, line, out) {
        return done;
    }
    session.read_ahead(rt, alloc, line, after, workers);
    match question_ahead(alloc, line, after, workers) {
        Some(question) => { session.answer_ahead(rt, alloc, store, question, after, workers, out) }
        None => {
            // The pass may see more now.
            session.replies = PreparedLines::new(alloc);
            answer_line(
                rt,
                alloc,
                store,
                &mut session.session,
                line,
                workers,
                gate,
                out,
            )
        }
    }
}
