// The text on a version, from a store, into a sink.
ghost use Rattle.std.specs.Prelude.{◌≡◌, ◌≤◌, IfOk, Err};
ghost use Rattle.jf_path.specs.Faults.{HasCause};
ghost use Rattle.jf_totals.specs.Texts.{history_text};
ghost use Rattle.jf_totals.specs.Written.{IsRecorded, WritesHistory};

use crate::blocks::{write_extends, write_member, write_total};
use crate::fault::HistoryFault;
use crate::roots::recorded_roots;
use jf_disk::Disk;
use jf_engine::Engine;
use jf_io::{IoFailed, Sink, put_all};
use jf_path::{Bytes, Memory};
use std::alloc::Global;

/// Writes into a sink the total of the roots that a store has recorded, with the proofs that the root of a version is
/// among them, and that they begin with those up to it (docs/FORMATS.md, Totals). The whole text is made before any of it
/// is written. Makes no call on the disk.
pub fn write_history<K: Sink, D: Disk>(
    alloc: Global,
    engine: &Engine<D>,
    version: u64,
    sink: &mut K,
) -> Result<(), HistoryFault>
    // What was appended is as the result says; `Outside` comes exactly if the version's root isn't recorded.
    ensures written { WritesHistory result engine.now.versions version (K.text sink.old) (K.text sink.new) }
    // `WriteFault` comes only with a fault of the sink: its count of faults rose, or stood at its greatest.
    ensures cause { result ≡ Err HistoryFault.WriteFault → HasCause (K.faults sink.old) (K.faults sink.new) }
    // The sink's count of faults doesn't fall.
    ensures counts { K.faults sink.old ≤ K.faults sink.new }
{
    let state = engine.state();
    if version < state.base || state.head < version {
        return Err(HistoryFault::Outside {
            least: state.base,
            head: state.head,
        });
    }
    let text = history_text(alloc, engine, version)?;
    match put_all(sink, text.as_slice()) {
        Ok(()) => Ok(()),
        Err(IoFailed) => Err(HistoryFault::WriteFault),
    }
}

// The text on a version whose root is recorded.
#[tactic(auto, unfolding(crate::specs::Texts::history_text))]
fn history_text<D: Disk>(alloc: Global, engine: &Engine<D>, version: u64) -> Result<Bytes, Memory>
    requires { IsRecorded engine.now.versions version }
    ensures { IfOk result (λ text. text ≡ history_text engine.now.versions version) }
{
    engine.know();
    let Some(root) = engine.root_of(version) else {
        unreachable!();
    };
    let index = version - engine.state().base;
    let roots = recorded_roots(alloc, engine)?;
    let mut text = Bytes::new(alloc);
    write_total(&roots, &mut text)?;
    write_member(alloc, &roots, index, &root, &mut text)?;
    write_extends(alloc, &roots, index + 1, &mut text)?;
    Ok(text)
}
