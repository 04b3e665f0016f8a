// A script from a source, run for what it lands, which is written into a sink.
ghost use Rattle.std.specs.Prelude.{◌≡◌, ◌≢◌, ◌≤◌, false, true};
ghost use Rattle.jf_path.specs.Faults.{HasCause};
ghost use Rattle.jf_store.specs.Events.{is_marked};
ghost use Rattle.jf_store.specs.Passes.{IsPassOf, none_pinned};
ghost use Rattle.jf_session.specs.Leading.{HasLedOver};
ghost use Rattle.jf_session.specs.Telling.{DoesLeading};

use crate::leader::Leader;
use crate::running::end_of_feeding;
use crate::session::Session;
use crate::stop::Stop;
use jf_disk::Disk;
use jf_history::{End, none_answered};
use jf_input::{FedThrough, feed_through};
use jf_io::{Sink, Source, USUAL_PIECE};
use jf_join::{Gate, Workers};
use jf_path::Bytes;
use jf_store::{Pass, Store};
use std::alloc::Global;
use std::sync::Wait;
use std::thread::Threads;

/// What `lead` hands back: its pass, how it ended, and whether the sink failed, and so has a front alone of the blocks.
#[derive(Drop)]
pub struct Led<D: Disk> {
    pub pass: Pass<D>,
    pub end: End,
    pub is_cut: bool,
}

/// Runs the lines of a script as `run` does, but drops their replies, and writes the landing blocks of what the session
/// lands into a sink (docs/FORMATS.md, "Landing blocks"), in the order of the landings.
///
/// The blocks of a line are written before input is asked for, before the next line that may change the store is done, and
/// before `lead` returns. So whoever reads the blocks of a leader that waits for input has all of its landings. After a fault
/// of the sink nothing more is written, and the rest of the script is run all the same. If memory runs out for the blocks of
/// a landing, that landing stands, all of its blocks are missing and none of an earlier one, and the run ends.
pub fn lead<S: Source, K: Sink, D: Disk, H: Threads + Wait + Sync, G: Gate>(
    rt: &H,
    alloc: Global,
    store: &Store<D>,
    pass: Pass<D>,
    workers: Workers,
    gate: &G,
    source: &mut S,
    sink: &mut K,
) -> Led<D>
    // The pass is one of this store's.
    requires own { IsPassOf pass store.now }
    // It has seen no fault of the disk.
    requires unmarked { is_marked pass.seen ≡ false }
    // It pins nothing.
    requires unpinned { pass.pinned ≡ none_pinned }
    // The pass that is handed back is the same one of this store.
    ensures own { IsPassOf result.pass store.now × (result.pass.number ≡ pass.number) }
    // The script was run as `run` does, and the blocks of its landings were written, by how the run ended.
    ensures led { HasLedOver result.end result.is_cut store.now.start pass result.pass (S.rest source.old) (S.rest source.new) (K.text sink.old) (K.text sink.new) }
    // A fault of the sink ends no run.
    ensures unstopped { result.end ≢ End.WriteFault }
    // It returns a fault of the source only if the source counted one.
    ensures read { result.end ≡ End.ReadFault → HasCause (S.faults source.old) (S.faults source.new) }
    // The blocks are cut off only if the sink counted a fault.
    ensures write { result.is_cut ≡ true → HasCause (K.faults sink.old) (K.faults sink.new) }
    // The source's count of faults doesn't fall.
    ensures source_counts { S.faults source.old ≤ S.faults source.new }
    // The sink's count of faults doesn't fall.
    ensures sink_counts { K.faults sink.old ≤ K.faults sink.new }
{
    none_answered();
    let session = Session::new(alloc, pass);
    session.know_own(store);
    let lead = |session: &mut Session<D>, line: &[u8], _after: &[u8], told: &mut Bytes| -> Result<
        (),
        Stop,
    >
        requires { (session.old.over ≡ false) × IsPassOf session.old.pass store.now }
        ensures { DoesLeading session.old line.now told.old result session.new told.new }
    { session.lead_line(rt, alloc, store, line, workers, gate, told) };
    let mut leader = Leader { session, lead };
    let FedThrough { how, is_cut } = feed_through(alloc, &mut leader, source, sink, USUAL_PIECE);
    let end = end_of_feeding(how);
    let Leader { session, lead: _ } = leader;
    let pass = session.end();
    Led { pass, end, is_cut }
}
