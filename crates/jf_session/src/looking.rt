// A line that reads the head is answered by a look, and the look is handed back.
ghost use Rattle.std.specs.Prelude.{◌≡◌, ℕ, List, Ok, Err, IfOk, IfErr, OnOk, OnErr, false, true};
ghost use Rattle.jf_hash.specs.Maps.{Batch};
ghost use Rattle.jf_script.specs.Bounds.{IsBoundedQuestion};
ghost use Rattle.jf_script.specs.declared.command.Question.{Question};
ghost use Rattle.jf_script.specs.declared.command.Base.TheVariants as base;
ghost use Rattle.jf_script.specs.declared.command.Command.TheVariants as command;
ghost use Rattle.jf_store.specs.Ledgers.{state_after_events};
ghost use Rattle.jf_store.specs.Looks.{IsLook};
ghost use Rattle.jf_store.specs.Passes.{IsPassOf, Sees};
ghost use Rattle.jf_session.specs.PreparedReplies.{AsksHead, HasLookedAtHead};
ghost use Rattle.jf_session.specs.Steps.{session_of, IsSoundSession, IsRunningOn, StopsFor};
ghost use Rattle.jf_session.specs.Taking.{DoesLine};

use crate::prepared_reply::write_head_reply;
use crate::refusing::refusal_reply;
use crate::session::Session;
use crate::stop::Stop;
use jf_disk::Disk;
use jf_path::{Bytes, Memory};
use jf_script::Question;
use jf_store::{Look, Pass, Store};
use std::alloc::Global;
use std::sync::Wait;

// Looks at the head, for a session with this pass. The session is over if the look fails.
fn head_of<D: Disk, H: Wait>(
    pass: &mut Pass<D>,
    over: &mut bool,
    rt: &H,
    store: &Store<D>,
) -> Result<Look, Stop>
    requires own { IsPassOf pass.old store.now }
    requires over { over.old ≡ false }
    ensures sound { (pending : Batch) → IsSoundSession (session_of pass.old pending over.old) → IsSoundSession (session_of pass.new pending over.new) }
    ensures sees { Sees pass.old pass.new }
    ensures ok { (pending : Batch) → IfOk result (HasLookedAtHead store.now.start (session_of pass.old pending over.old) (session_of pass.new pending over.new)) }
    ensures err { (pending : Batch) (q : Question) → IfErr result (StopsFor store.now.start (session_of pass.old pending over.old) (session_of pass.new pending over.new) (command.Read base.Head q)) }
    ensures ends { OnErr result (over.new ≡ true) }
{
    match pass.look(rt, store) {
        Ok(look) => Ok(look),
        Err(fault) => match refusal_reply(fault, over) {
            Err(why) => Err(why),
            Ok(_) => unreachable!(),
        },
    }
}

impl<D: Disk> Session<D> {
    // Looks at the head. The session is over if the look fails.
    fn look_at_head<H: Wait>(&mut self, rt: &H, store: &Store<D>) -> Result<Look, Stop>
        requires { IsRunningOn self.old store.now }
        ensures own { IsPassOf self.new.pass store.now }
        ensures ok { IfOk result (HasLookedAtHead store.now.start self.old self.new) }
        ensures err { (q : Question) → IfErr result (StopsFor store.now.start self.old self.new (command.Read base.Head q)) }
        ensures ends { OnErr result (self.new.over ≡ true) }
    {
        head_of(&mut self.pass, &mut self.over, rt, store)
    }

    // Answers a question over the map of the head, which a line asks, by a look.
    pub(crate) fn answer_by_look<H: Wait>(
        &mut self,
        rt: &H,
        alloc: Global,
        store: &Store<D>,
        question: Question,
        out: &mut Bytes,
    ) -> Result<Look, Stop>
        requires open { IsRunningOn self.old store.now }
        requires bounded { IsBoundedQuestion question }
        ensures own { IsPassOf self.new.pass store.now }
        ensures look { IfOk result (IsLook (state_after_events store.now.start self.new.pass.seen)) }
        ensures ok { (line : List ℕ) → AsksHead line question → OnOk result (DoesLine self.old line out.old (Ok tt) self.new out.new) }
        ensures err { (line : List ℕ) → AsksHead line question → IfErr result (λ why. DoesLine self.old line out.old (Err why) self.new out.new) }
    {
        let looked = self.look_at_head(rt, store);
        self.know_own(store);
        self.know_events(store);
        let look = match looked {
            Ok(look) => look,
            Err(why) => return Err(why),
        };
        let seen = self.seen_count();
        match write_head_reply(alloc, &look.head, seen, question, out) {
            Ok(()) => Ok(look),
            Err(Memory) => {
                self.stop();
                Err(Stop::Memory)
            }
        }
    }
}
