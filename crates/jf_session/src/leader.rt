// A session that leads, as a machine that takes lines.
use crate::quiet::is_quiet;
use crate::stop::Stop;
use crate::taking::Shows;
use jf_input::{AtHand, LineMachine};
use jf_path::Bytes;
use std::alloc::Global;

// A session, and the call that does a line and tells what it lands. As in `Taking`, a method of a trait can't make that call
// by its name.
pub(crate) struct Leader<T, F> {
    pub(crate) session: T,
    pub(crate) lead: F,
}

impl<T: Shows, F: Fn(&mut T, &[u8], &[u8], &mut Bytes) -> Result<(), Stop>> LineMachine
    for Leader<T, F> {
    ghost use Rattle.jf_store.specs.Passes.{Store};
    ghost use Rattle.jf_session.specs.Taking.{MayStep, AnswersEnd, StaysQuiet};
    ghost use Rattle.jf_session.specs.Telling.{LeadsLine, DoesLeading};

    type Stop = Stop;

    ghost ready = { λ t. (store : Store) × MayStep DoesLeading store T.shown t.session (F.pre t.lead) (F.post t.lead) };

    ghost takes = { λ t line next r. LeadsLine (T.shown t.session) line (T.shown next.session) r };

    ghost ends = { λ t next r. AnswersEnd (T.shown t.session) (T.shown next.session) r };

    ghost quiet = { λ t next. StaysQuiet (T.shown t.session) (T.shown next.session) };

    fn is_quiet(&self, line: &[u8]) -> bool {
        is_quiet(line)
    }

    fn take_line(&mut self, _alloc: Global, next: AtHand, out: &mut Bytes) -> Result<(), Stop> {
        (self.lead)(&mut self.session, next.line, next.after, out)
    }

    fn take_end(&mut self, _alloc: Global, _out: &mut Bytes) -> Result<(), Stop> {
        Ok(())
    }
}
