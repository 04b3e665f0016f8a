// The results of sessions, in lists whose room was taken before the first session began.
ghost use Rattle.std.specs.Prelude.{◌≡◌, ◌<◌, length, IfOk};
ghost use Rattle.jf_serve.specs.Ran.{none_gathered, one_more_gathered};

use crate::one_session::SessionRan;
use crate::outputs::{Ends, Outputs};
use jf_disk::Disk;
use jf_history::End;
use jf_path::{Bytes, Memory};
use jf_store::Pass;
use std::alloc::Global;
use std::marker::Model;

/// The results of sessions, in the order of their numbers: their passes, the texts of their replies, and how they ended.
#[derive(Drop)]
pub(crate) struct Gathered<D: Disk> {
    passes: Vec<Pass<D>>,
    texts: Vec<Bytes>,
    ends: Vec<End>,
    // For how many sessions each list has room.
    room: u64,
}

impl<D: Disk> Model for Gathered<D> {
    ghost use Rattle.std.specs.Prelude.{◌≡◌, ◌≤◌, length, vec_capacity};
    ghost use Rattle.std.specs.Coded.{codes};
    ghost use Rattle.jf_hash.specs.Codes.{map_code};
    ghost use Rattle.jf_serve.specs.Ran.{SessionResults};

    ghost Value = { SessionResults };

    ghost coded = { Prim.hlevel (codes, map_code) };

    ghost view = { λ g. record { passes = g.passes.items; texts = g.texts.items; ends = g.ends.items; room = g.room } };

    ghost invariant = { λ g. (g.room ≤ vec_capacity g.passes) × (g.room ≤ vec_capacity g.texts) × (g.room ≤ vec_capacity g.ends) × (length g.texts.items ≡ length g.passes.items) × (length g.ends.items ≡ length g.passes.items) };
}

impl<D: Disk> Gathered<D> {
    /// Nothing, with room for so many sessions.
    pub(crate) fn with_room(alloc: Global, sessions: usize) -> Result<Gathered<D>, Memory>
        ensures { IfOk result (λ g. g ≡ none_gathered sessions) }
    {
        Ok(Gathered {
            passes: Vec::with_capacity(alloc, sessions)?,
            texts: Vec::with_capacity(alloc, sessions)?,
            ends: Vec::with_capacity(alloc, sessions)?,
            room: sessions as u64,
        })
    }

    /// Adds the result of one session more. It takes no memory.
    pub(crate) fn with(mut self, one: SessionRan<D>) -> Gathered<D>
        requires { length self.passes < self.room }
        ensures { result ≡ one_more_gathered self one.end one.text one.pass }
    {
        let SessionRan { pass, text, end } = one;
        self.passes.push_reserved(pass);
        self.texts.push_reserved(text);
        self.ends.push_reserved(end);
        self
    }

    /// The passes, what was written, and how the sessions ended.
    pub(crate) fn into_parts(self) -> (Vec<Pass<D>>, Outputs, Ends)
        ensures passes { result.0.items ≡ self.passes }
        ensures outputs { result.1 ≡ self.texts }
        ensures ends { result.2 ≡ self.ends }
    {
        let Gathered {
            passes,
            texts,
            ends,
            room: _,
        } = self;
        (passes, Outputs { texts }, Ends { ends })
    }
}
