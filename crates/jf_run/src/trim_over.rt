// The mode `trim` over an open store: the side of its files that isn't live is cut to its closed gate.
ghost use Rattle.std.specs.Prelude.{◌≡◌, ◌≢◌, ◌+◌, ◌≤◌, [], ◌∷◌, ℕ, List, Option, Ok, IfOk, codes, decimal, false};
ghost use Rattle.jf_path.specs.Faults.{HasCause};
ghost use Rattle.jf_text.specs.Words.{line_text};
ghost use Rattle.jf_model.specs.States.{state_when_opened};
ghost use Rattle.jf_words.specs.declared.modes.Mode.TheVariants as mode;
ghost use Rattle.jf_run.specs.Bodies.{CompletesCall};
ghost use Rattle.jf_run.specs.Calls.{devices, disk_of, engine_disk};
ghost use Rattle.jf_run.specs.Trimming.{TellsTrimmed, side_name, trimmed_line};

use crate::over::Over;
use crate::status::Status;
use jf_disk::{Disk, Side};
use jf_engine::{Engine, OpenFault};
use jf_files::{damage_is_no_versions, files_stand_for_one};
use jf_io::{IoFailed, Sink, put_all};
use jf_model::Ledger;
use jf_path::{Bytes, Memory};
use jf_text::write_number;
use jf_trim::{Trimmed, kept_stores_stop_well, trim};
use std::alloc::Global;

/// Cuts the side of a store's files that isn't live to its closed gate, and writes into a sink which side that is and by how
/// many bytes it is shorter. What the store has in memory is freed first, so this takes no more memory than the opening did.
/// At most 15 calls are made on the disk.
pub(crate) fn trim_over<K: Sink, D: Disk>(alloc: Global, engine: Engine<D>, sink: &mut K) -> Over<D>
    requires whole { engine.broken ≡ false }
    ensures here { (head : ℕ) (root : List ℕ) → result.status ≢ Status.Elsewhere head root }
    ensures moments { D.moment result.disk ≤ engine.moment + 15 }
    ensures kept { (rest : Option (List ℕ)) (source_faults : ℕ) → CompletesCall mode.Trim (state_when_opened engine.versions engine.generation) (devices (engine_disk engine) rest source_faults (K.text sink.old) (K.faults sink.old)) (devices (disk_of D.Disk result.disk) rest source_faults (K.text sink.new) (K.faults sink.new)) result.status result.entries }
{
    engine.know();
    damage_is_no_versions();
    files_stand_for_one();
    kept_stores_stop_well();
    let (mut disk, memory) = engine.into_parts();
    drop(memory);
    let status = match trim(alloc, &mut disk) {
        Ok(trimmed) => tell_trimmed(alloc, trimmed, sink),
        Err(why) => Status::of_refusal(OpenFault::from(why)),
    };
    Over {
        status,
        disk,
        entries: Ledger::new(alloc),
        memory: None,
    }
}

/// Writes into a sink what was trimmed. Returns how that ended.
fn tell_trimmed<K: Sink>(alloc: Global, trimmed: Trimmed, sink: &mut K) -> Status
    ensures written { TellsTrimmed (Ok trimmed) result (K.text sink.old) (K.text sink.new) }
    ensures unwritten { result ≡ Status.Memory → sink.new ≡ sink.old }
    ensures cause { result ≡ Status.WriteFault → HasCause (K.faults sink.old) (K.faults sink.new) }
    ensures counts { K.faults sink.old ≤ K.faults sink.new }
{
    let Ok(line) = trimmed_line(alloc, trimmed) else {
        return Status::Memory;
    };
    match put_all(sink, line.as_slice()) {
        Ok(()) => Status::Done,
        Err(IoFailed) => Status::WriteFault,
    }
}

/// The line that tells what was trimmed.
fn trimmed_line(alloc: Global, trimmed: Trimmed) -> Result<Bytes, Memory>
    ensures { IfOk result (λ line. line ≡ trimmed_line trimmed) }
{
    let mut line = Bytes::new(alloc);
    line.append(b"trimmed ")?;
    line.append(side_name(trimmed.side))?;
    write_number(b" ", trimmed.bytes, &mut line)?;
    line.push(b'\n')?;
    Ok(line)
}

/// The name of a side in a text.
fn side_name(side: Side) -> &'static [u8]
    ensures { result.now ≡ side_name side }
{
    match side {
        Side::A => b"a",
        Side::B => b"b",
    }
}
