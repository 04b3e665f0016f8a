// A session: one script over a pass of a shared store.
ghost use Rattle.std.specs.Prelude.{◌≡◌, ◌⊎◌, ◌++◌, length, Err, OnOk, OnErr, false, true};
ghost use Rattle.jf_store.specs.Events.{is_marked};
ghost use Rattle.jf_store.specs.Ledgers.{AreEvents};
ghost use Rattle.jf_store.specs.Passes.{IsPassOf, none_pinned};
ghost use Rattle.jf_answers.specs.Explains.{LineReply};
ghost use Rattle.jf_history.specs.Sessions.{HasReplied, HoldsPins, IsTry, IsBroken, HasDoneNothing, new_session, seen_by};
ghost use Rattle.jf_session.specs.Steps.{IsSoundSession};
ghost use Rattle.jf_session.specs.Answering.{stopped_session};

use crate::answer::write_answer;
use crate::stop::Stop;
use jf_disk::Disk;
use jf_join::{Gate, Workers};
use jf_path::Bytes;
use jf_split::Pending;
use jf_store::{Pass, Store};
use std::alloc::Global;
use std::marker::Model;
use std::sync::Wait;
use std::thread::Threads;

/// One script over a pass of a shared store: what is pending for its next commit, and the pins of its pass.
pub struct Session<D: Disk> {
    pub(crate) pass: Pass<D>,
    pub(crate) pending: Pending,
    pub(crate) over: bool,
}

impl<D: Disk> Model for Session<D> {
    ghost use Rattle.std.specs.Coded.{codes};
    ghost use Rattle.jf_hash.specs.Codes.{map_code};
    ghost use Rattle.jf_history.specs.Sessions.{Session};
    ghost use Rattle.jf_session.specs.Steps.{session_of, IsSoundSession};

    ghost Value = { Session };

    ghost coded = { Prim.hlevel (codes, map_code) };

    ghost view = { λ s. session_of s.pass s.pending s.over };

    ghost invariant = { λ s. IsSoundSession (session_of s.pass s.pending s.over) };
}

impl<D: Disk> Session<D> {
    /// A session that has done no line yet: nothing is pending, and nothing is pinned.
    pub fn new(alloc: Global, pass: Pass<D>) -> Session<D>
        // The pass has seen no fault of the disk.
        requires unmarked { is_marked pass.seen ≡ false }
        // It pins nothing.
        requires unpinned { pass.pinned ≡ none_pinned }
        // The session has this pass, and nothing is pending.
        ensures { result ≡ new_session pass }
    {
        Session {
            pass,
            pending: Pending::new(alloc),
            over: false,
        }
    }

    /// Ends the session, and hands back its pass. What is pending is dropped; what is pinned stays pinned.
    pub fn end(self) -> Pass<D>
        // The session's pass.
        ensures { result ≡ self.pass }
    {
        let Session {
            pass,
            pending: _,
            over: _,
        } = self;
        pass
    }

    /// What holds of every session, for proofs.
    pub fn know(&self)
        // It is over or has seen no fault of the disk, and what it pins has the maps of its versions.
        ensures { IsSoundSession self.now }
    {
        let _ = &self.pass;
    }

    /// What holds of every session on a store, for proofs: what it keeps for itself has the number of its pass, and the pins
    /// that its pass holds on the board.
    pub fn know_own(&self, store: &Store<D>)
        // It has the number of its pass.
        ensures number { self.now.own.number ≡ self.now.pass.number }
        // It has the pins of its pass, and the board has them too.
        ensures pins { HoldsPins self.now }
    {
        self.pass.know_pins(store);
    }

    /// What holds of every session over a pass of a store, for proofs: what its pass has seen is a legal history of the store.
    pub fn know_events(&self, store: &Store<D>)
        // The session's pass is one of this store's.
        requires { IsPassOf self.now.pass store.now }
        // What the pass has seen is a legal history of the store.
        ensures { AreEvents store.now.start self.now.pass.seen }
    {
        self.pass.know(store);
    }

    // How many entries its pass has seen.
    pub(crate) fn seen_count(&self) -> u64
        ensures { result ≡ length (seen_by self.now.pass) }
    {
        self.pass.seen_count()
    }

    // The session is over.
    pub(crate) fn stop(&mut self)
        ensures { self.new ≡ stopped_session self.old }
    {
        self.over = true;
    }

    /// Does what one line asks for and answers it; the line is given without the byte that ends it (docs/FORMATS.md,
    /// "Scripts" and "Replies"). The reply's line, and the block after it if there is one, are appended to `out`. A
    /// line outside the grammar and a command that is refused have a reply too. At most `workers` threads work on a
    /// landing.
    ///
    /// After an error the session is over, and `out` is unchanged:
    ///
    /// - `DiskFault`: the disk failed in what the line asked for. The pass has then seen the mark of this call.
    /// - `Broken`: the disk failed in an earlier call through the store. Nothing was done.
    /// - `Memory`: memory ran out. Either nothing was done, or the line was done and only its reply is missing.
    pub fn step<H: Threads + Wait + Sync, G: Gate>(
        &mut self,
        rt: &H,
        alloc: Global,
        store: &Store<D>,
        line: &[u8],
        workers: Workers,
        gate: &G,
        out: &mut Bytes,
    ) -> Result<(), Stop>
        // The session's pass is one of this store's.
        requires own { IsPassOf self.old.pass store.now }
        // The session isn't over.
        requires over { self.old.over ≡ false }
        // The pass is still one of this store's.
        ensures own { IsPassOf self.new.pass store.now }
        // The line was done over what the pass has seen, and its reply appended.
        ensures ok { OnOk result ((r : LineReply) × HasReplied store.now.start self.old self.new line.now r × (out.new ≡ out.old ++ r.text)) }
        // After success the session goes on.
        ensures goes_on { OnOk result (self.new.over ≡ false) }
        // After an error nothing was appended.
        ensures silent { OnErr result (out.new ≡ out.old) }
        // After an error the session is over.
        ensures ends { OnErr result (self.new.over ≡ true) }
        // If the disk failed, the line's change is the attempt that the pass marked.
        ensures fault { result ≡ Err Stop.DiskFault → IsTry store.now.start self.old self.new line.now }
        // If the store is broken, nothing was done, and the pass has seen the mark.
        ensures broken { result ≡ Err Stop.Broken → IsBroken self.old self.new line.now }
        // If memory ran out, nothing was done, or the line was done and its reply is lost.
        ensures memory { result ≡ Err Stop.Memory → HasDoneNothing self.old self.new line.now ⊎ ((r : LineReply) × HasReplied store.now.start self.old self.new line.now r) }
    {
        let mut block = Bytes::new(alloc);
        match self.reply_to_line(rt, alloc, store, line, workers, gate, &mut block) {
            Ok(reply) => {
                let seen = self.seen_count();
                if write_answer(seen, &reply, block.as_slice(), out).is_err() {
                    self.stop();
                    return Err(Stop::Memory);
                }
                Ok(())
            }
            Err(why) => {
                self.stop();
                Err(why)
            }
        }
    }
}
