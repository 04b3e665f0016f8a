// What two passes of a store do side by side, one of them in another thread. Store and pass are any two types of which clauses
// see that: that a closure over them may go to another thread is then found without a look inside them.
ghost use Rattle.std.specs.Prelude.{◌≡◌};
ghost use Rattle.jf_store.specs.Passes.{Store, Pass, IsPassOf};
ghost use Rattle.test_passes.specs.Parts.{IsPart, StaysPass};

use jf_disk::Disk;
use jf_store::{Pass, Store};
use std::thread::{Threads, join_mut};

// What clauses see as a store.
pub(crate) trait ShowsStore {
    ghost store: { Self → Store };
}

impl<D: Disk> ShowsStore for Store<D> {
    ghost store = { λ s. s };
}

// What clauses see as a pass.
pub(crate) trait ShowsPass {
    ghost pass: { Self → Pass };
}

impl<D: Disk> ShowsPass for Pass<D> {
    ghost pass = { λ p. p };
}

// Does the part of one pass.
fn play<S: ShowsStore, P: ShowsPass, F: Fn(&S, &mut P) -> bool>(
    part: &F,
    store: &S,
    pass: &mut P,
) -> bool
    requires own { IsPassOf (P.pass pass.old) (S.store store.now) }
    requires part { IsPart S.store P.pass (S.store store.now) (F.pre part.now) (F.post part.now) }
    ensures { StaysPass (S.store store.now) (P.pass pass.old) (P.pass pass.new) }
{
    part(store, pass)
}

// Does the part of the first pass in another thread, and beside it the second one's. Returns whether both went well.
pub(crate) fn side_by_side<
    S: ShowsStore + Sync,
    P: ShowsPass + Send,
    H: Threads,
    F: Fn(&S, &mut P) -> bool + Sync,
    G: Fn(&S, &mut P) -> bool + Sync,
>(rt: &H, store: &S, first: &mut P, second: &mut P, one: &F, other: &G) -> bool
    requires first { IsPassOf (P.pass first.old) (S.store store.now) }
    requires second { IsPassOf (P.pass second.old) (S.store store.now) }
    requires one { IsPart S.store P.pass (S.store store.now) (F.pre one.now) (F.post one.now) }
    requires other { IsPart S.store P.pass (S.store store.now) (G.pre other.now) (G.post other.now) }
    ensures first { StaysPass (S.store store.now) (P.pass first.old) (P.pass first.new) }
    ensures second { StaysPass (S.store store.now) (P.pass second.old) (P.pass second.new) }
{
    let (first_well, second_well) = join_mut(
        rt,
        &mut || -> bool
            requires { IsPassOf (P.pass first.now) (S.store store.now) × IsPart S.store P.pass (S.store store.now) (F.pre one.now) (F.post one.now) }
            ensures { StaysPass (S.store store.entry.now) (P.pass first.entry.now) (P.pass first.exit.now) }
        { play(one, store, first) },
        &mut || -> bool
            requires { IsPassOf (P.pass second.now) (S.store store.now) × IsPart S.store P.pass (S.store store.now) (G.pre other.now) (G.post other.now) }
            ensures { StaysPass (S.store store.entry.now) (P.pass second.entry.now) (P.pass second.exit.now) }
        { play(other, store, second) },
    );
    first_well && second_well
}
