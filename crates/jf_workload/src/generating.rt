// A generated script over a pass, and what the mode writes of its replies.
ghost use Rattle.std.specs.Prelude.{◌≡◌, ◌≤◌, length, false};
ghost use Rattle.jf_path.specs.Faults.{HasCause};
ghost use Rattle.jf_store.specs.Events.{is_marked};
ghost use Rattle.jf_store.specs.Passes.{IsPassOf, none_pinned};
ghost use Rattle.jf_generate.specs.Scripts.{max_lines};
ghost use Rattle.jf_workload.specs.ScriptRuns.{HasRunScript};

use crate::report::write_report;
use crate::script_lines::answer_script;
use jf_disk::Disk;
use jf_generate::Generator;
use jf_io::Sink;
use jf_join::{Gate, Workers};
use jf_session::{End, Ran, Session};
use jf_store::{Pass, Store};
use std::alloc::Global;
use std::sync::Wait;
use std::thread::Threads;

/// Runs the lines that a generator still gives over a pass of a store that pins nothing and has seen no fault of the disk,
/// and then writes into a sink what the mode writes of their replies (docs/FORMATS.md, Generated scripts). It hands the pass
/// back with how the run ended. It reads no input. A line that asks the store waits for its turn. A landing takes at most
/// this many workers.
///
/// Nothing is written before all lines are done. So after a fault of the disk, or out of memory, the text is unchanged; after
/// a fault of the sink all lines were done, and a front of what the mode writes was written.
pub fn run_generated<K: Sink, D: Disk, H: Threads + Wait + Sync, G: Gate>(
    rt: &H,
    alloc: Global,
    store: &Store<D>,
    pass: Pass<D>,
    script: Generator,
    sink: &mut K,
    workers: Workers,
    gate: &G,
) -> Ran<D>
    // The pass is one of this store.
    requires own { IsPassOf pass store.now }
    // The pass has seen no fault of the disk.
    requires unmarked { is_marked pass.seen ≡ false }
    // The pass pins nothing.
    requires unpinned { pass.pinned ≡ none_pinned }
    // At most 10,003,002 lines are to come.
    requires lines { length script ≤ max_lines }
    // The pass that is handed back is one of this store, with the same number.
    ensures own { IsPassOf result.pass store.now × (result.pass.number ≡ pass.number) }
    // The lines done are the first of the script, answered over the pass; what was written of the replies is as the end says.
    ensures ran { HasRunScript result.end store.now.start script pass result.pass (K.text sink.old) (K.text sink.new) }
    // `WriteFault` comes only with a fault of the sink: its count of faults rose, or stood at its greatest.
    ensures cause { result.end ≡ End.WriteFault → HasCause (K.faults sink.old) (K.faults sink.new) }
    // The sink's count of faults doesn't fall.
    ensures counts { K.faults sink.old ≤ K.faults sink.new }
{
    let mut session = Session::new(alloc, pass);
    session.know_own(store);
    let answered = answer_script(rt, alloc, store, &mut session, script, workers, gate);
    let pass = session.end();
    match answered {
        Ok(tally) => Ran {
            pass,
            end: write_report(alloc, &tally, sink),
        },
        Err(why) => Ran {
            pass,
            end: why.end(),
        },
    }
}
