// The lines of a script, of the input or a generated one, done over a store of one pass.
ghost use Rattle.std.specs.Prelude.{◌≡◌, ◌≤◌, Option, false, length};
ghost use Rattle.jf_path.specs.Faults.{HasCause};
ghost use Rattle.jf_model.specs.States.{state_when_opened};
ghost use Rattle.jf_model.specs.declared.entries.Entry.{Entry};
ghost use Rattle.jf_generate.specs.Scripts.{max_lines};
ghost use Rattle.jf_store.specs.Events.{is_marked};
ghost use Rattle.jf_store.specs.Passes.{IsPassOf, none_pinned};
ghost use Rattle.jf_run.specs.Calls.{disk_of, engine_disk};
ghost use Rattle.jf_run.specs.ScriptLines.{HasDoneLines, HasDoneScript, IfGenerated};

use crate::over::Over;
use crate::status::Status;
use jf_answers::{entry_spares_pins, floor_spares_pins};
use jf_disk::Disk;
use jf_engine::Engine;
use jf_generate::Generator;
use jf_history::{one_pass_closes, one_run_is_alone};
use jf_io::{Sink, Source};
use jf_join::{Gate, Workers};
use jf_model::Ledger;
use jf_session::{Led, Ran, lead, one_lead_tells_all, run};
use jf_store::{Closed, Pass, Store, StoreRefused};
use jf_workload::{one_script_is_alone, run_generated};
use std::alloc::Global;
use std::sync::Wait;
use std::thread::Threads;

/// Where the lines of a script come from, and what is written of them.
#[derive(Drop)]
pub(crate) enum Script {
    /// The input. The replies are written.
    Input,
    /// The input. The landing blocks are written, and no replies.
    Led,
    /// A generated script. The report on the replies is written.
    Generated(Generator),
}

/// The pass that did the lines of a script, and the status that their end gives.
#[derive(Drop)]
struct ScriptDone<D: Disk> {
    pass: Pass<D>,
    status: Status,
}

/// Does the lines of a script over a store of one pass, which stands on this engine, and writes what comes of them into
/// the sink. If there is no memory for the store, no line is done, and the run ends with `Memory`.
pub(crate) fn script_over<S: Source, K: Sink, D: Disk, H: Threads + Wait + Sync, G: Gate>(
    rt: &H,
    alloc: Global,
    engine: Engine<D>,
    script: Script,
    source: &mut S,
    sink: &mut K,
    workers: Workers,
    gate: &G,
) -> Over<D>
    requires whole { engine.broken ≡ false }
    requires lines { IfGenerated script (λ lines. length lines ≤ max_lines) }
    ensures ran { (attempt : Option Entry) × HasDoneScript script result.status (state_when_opened engine.versions engine.generation) (engine_disk engine) (disk_of D.Disk result.disk) result.entries attempt (S.rest source.old) (S.rest source.new) (K.text sink.old) (K.text sink.new) (K.faults sink.old) (K.faults sink.new) }
    ensures unread { IfGenerated script (λ lines. source.new ≡ source.old) }
    ensures read { result.status ≡ Status.ReadFault → HasCause (S.faults source.old) (S.faults source.new) }
    ensures write { result.status ≡ Status.WriteFault → HasCause (K.faults sink.old) (K.faults sink.new) }
    ensures source_counts { S.faults source.old ≤ S.faults source.new }
    ensures sink_counts { K.faults sink.old ≤ K.faults sink.new }
{
    engine.know();
    one_pass_closes();
    one_run_is_alone();
    one_lead_tells_all();
    one_script_is_alone();
    floor_spares_pins();
    entry_spares_pins();
    let (store, mut passes) = match Store::new(alloc, engine, 1) {
        Ok(made) => made,
        Err(StoreRefused { engine }) => {
            return Over::of_engine(Status::Memory, engine, Ledger::new(alloc));
        }
    };
    let Some(pass) = passes.pop() else {
        unreachable!()
    };
    let ScriptDone { pass, status } = do_lines(
        rt, alloc, &store, pass, script, source, sink, workers, gate,
    );
    passes.push_reserved(pass);
    let Closed { engine, entries } = store.close(passes);
    Over::of_engine(status, engine, entries)
}

/// Does the lines of a script by a session of its own over this pass.
fn do_lines<S: Source, K: Sink, D: Disk, H: Threads + Wait + Sync, G: Gate>(
    rt: &H,
    alloc: Global,
    store: &Store<D>,
    pass: Pass<D>,
    script: Script,
    source: &mut S,
    sink: &mut K,
    workers: Workers,
    gate: &G,
) -> ScriptDone<D>
    requires own { IsPassOf pass store.now }
    requires unmarked { is_marked pass.seen ≡ false }
    requires unpinned { pass.pinned ≡ none_pinned }
    requires lines { IfGenerated script (λ lines. length lines ≤ max_lines) }
    ensures own { IsPassOf result.pass store.now × (result.pass.number ≡ pass.number) }
    ensures ran { HasDoneLines script result.status store.now.start pass result.pass (S.rest source.old) (S.rest source.new) (K.text sink.old) (K.text sink.new) (K.faults sink.old) (K.faults sink.new) }
    ensures unread { IfGenerated script (λ lines. source.new ≡ source.old) }
    ensures read { result.status ≡ Status.ReadFault → HasCause (S.faults source.old) (S.faults source.new) }
    ensures write { result.status ≡ Status.WriteFault → HasCause (K.faults sink.old) (K.faults sink.new) }
    ensures source_counts { S.faults source.old ≤ S.faults source.new }
    ensures sink_counts { K.faults sink.old ≤ K.faults sink.new }
{
    match script {
        Script::Input => {
            let Ran { pass, end } = run(rt, alloc, store, pass, source, sink, workers, gate);
            let status = Status::of_end(end);
            ScriptDone { pass, status }
        }
        Script::Led => {
            let Led { pass, end, is_cut } = lead(
                rt, alloc, store, pass, workers, gate, source, sink,
            );
            let status = Status::of_led(end, is_cut);
            ScriptDone { pass, status }
        }
        Script::Generated(lines) => {
            let Ran { pass, end } = run_generated(
                rt, alloc, store, pass, lines, sink, workers, gate,
            );
            let status = Status::of_end(end);
            ScriptDone { pass, status }
        }
    }
}
