// A script from a source, answered into a sink.
ghost use Rattle.std.specs.Prelude.{◌≡◌, ◌≤◌, false};
ghost use Rattle.jf_path.specs.Faults.{HasCause};
ghost use Rattle.jf_store.specs.Events.{is_marked};
ghost use Rattle.jf_store.specs.Passes.{IsPassOf, none_pinned};
ghost use Rattle.jf_history.specs.Runs.{HasRunOver};
ghost use Rattle.jf_session.specs.Taking.{DoesLine, end_of_feeding};

use crate::preparing::{Preparing, attend};
use crate::session::Session;
use crate::stop::Stop;
use crate::taking::Taking;
use jf_disk::Disk;
use jf_history::{End, none_answered};
use jf_input::{Feeding, feed};
use jf_io::{MAX_PIECE, Sink, Source};
use jf_join::{Gate, Workers};
use jf_path::Bytes;
use jf_store::{Pass, Store};
use std::alloc::Global;
use std::sync::Wait;
use std::thread::Threads;

/// What a run hands back: its pass, and how it ended.
#[derive(Drop)]
pub struct Ran<D: Disk> {
    pub pass: Pass<D>,
    pub end: End,
}

/// Answers the lines of a script (docs/FORMATS.md) from a source into a sink, over a pass of a store that pins nothing and
/// has seen no fault of the disk, and hands the pass back with how the run ended. A line that asks the store waits for its
/// turn. A landing takes at most this many workers, and so do many lines at hand that read the head, or are puts. Input is
/// taken in pieces of at most 262,144 bytes. After a fault of the source, the sink or the disk, or out of memory, the run ends.
///
/// While whole lines are at hand that can't change the store, their replies may be gathered. All replies so far are written
/// before a line is done that may change the store, before more input is asked for, and before the run ends. So a program
/// that writes a line and waits gets its reply.
pub fn run<S: Source, K: Sink, D: Disk, H: Threads + Wait + Sync, G: Gate>(
    rt: &H,
    alloc: Global,
    store: &Store<D>,
    pass: Pass<D>,
    source: &mut S,
    sink: &mut K,
    workers: Workers,
    gate: &G,
) -> Ran<D>
    // The pass is one of this store's.
    requires own { IsPassOf pass store.now }
    // It has seen no fault of the disk.
    requires unmarked { is_marked pass.seen ≡ false }
    // It pins nothing.
    requires unpinned { pass.pinned ≡ none_pinned }
    // The pass that is handed back is the same one of this store.
    ensures own { IsPassOf result.pass store.now × (result.pass.number ≡ pass.number) }
    // Each line that was done was answered by what the store held, and its reply written, by how the run ended.
    ensures ran { HasRunOver result.end store.now.start pass result.pass (S.rest source.old) (S.rest source.new) (K.text sink.old) (K.text sink.new) }
    // It returns a fault of the source only if the source counted one.
    ensures read { result.end ≡ End.ReadFault → HasCause (S.faults source.old) (S.faults source.new) }
    // It returns a fault of the sink only if the sink counted one.
    ensures write { result.end ≡ End.WriteFault → HasCause (K.faults sink.old) (K.faults sink.new) }
    // The source's count of faults doesn't fall.
    ensures source_counts { S.faults source.old ≤ S.faults source.new }
    // The sink's count of faults doesn't fall.
    ensures sink_counts { K.faults sink.old ≤ K.faults sink.new }
{
    none_answered();
    let session = Session::new(alloc, pass);
    session.know_own(store);
    let preparing = Preparing::new(alloc, session);
    let step = |session: &mut Preparing<D>, line: &[u8], after: &[u8], out: &mut Bytes| -> Result<
        (),
        Stop,
    >
        requires { (session.old.over ≡ false) × IsPassOf session.old.pass store.now }
        ensures { DoesLine session.old line.now out.old result session.new out.new }
    { attend(rt, alloc, store, session, line, after, workers, gate, out) };
    let mut taking = Taking {
        session: preparing,
        step,
    };
    let end = end_of_feeding(feed(alloc, &mut taking, source, sink, MAX_PIECE));
    let Taking { session, step: _ } = taking;
    let pass = session.end();
    Ran { pass, end }
}

// How a run ended.
pub(crate) fn end_of_feeding(how: Feeding<Stop>) -> End
    ensures { result ≡ end_of_feeding how }
{
    match how {
        Feeding::Done => End::Done,
        Feeding::ReadFault => End::ReadFault,
        Feeding::WriteFault => End::WriteFault,
        Feeding::Memory => End::Memory,
        Feeding::Stopped(why) => why.end(),
    }
}
