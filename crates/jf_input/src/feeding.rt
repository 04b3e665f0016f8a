// The lines of a source, taken by a machine, and what they add, written into a sink.
ghost use Rattle.std.specs.Prelude.{◌≡◌, ◌⊎◌, ◌-◌, ◌<◌, ◌≤◌, ◌^◌, Err, OnOk, OnErr, IfErr, List, ℕ, Ok, [], Some, IsTrue, true, false, length};
ghost use Rattle.std.specs.List.{position_or_len, after_first};
ghost use Rattle.jf_path.specs.Faults.{HasCause};
ghost use Rattle.jf_io.specs.declared.piece.TheConstants.{MAX_PIECE};
ghost use Rattle.jf_io.specs.LineReader.{is_line_feed, IsShortened, IsFetched};
ghost use Rattle.jf_io.specs.Sink.{IsCutShort};
ghost use Rattle.jf_input.specs.Feeds.{front_of_line, max_gathered, IsQuietLine, Appends, HandsOn, Gathers, StopsGathering, EndsAfter, HasFed};

use crate::machine::{AtHand, LineMachine};
use jf_io::{FetchFault, IoFailed, LineReader, Sink, Source, put_all};
use jf_path::Bytes;
use jf_text::MAX_LINE;
use std::alloc::Global;

// Once so many bytes are gathered, they are written before the next line is taken.
const FULL: u64 = 65_536;

/// How a machine was fed.
pub enum Feeding<F> {
    /// The input was read to its end, and all that was added was written.
    Done,
    /// The source failed.
    ReadFault,
    /// The sink failed.
    WriteFault,
    /// There is no memory for the next line.
    Memory,
    /// The machine stopped.
    Stopped(F),
}

/// Hands the lines of a source to a machine, and what it adds to a sink. Input is taken in pieces of at most `piece` bytes,
/// 1 to `MAX_PIECE`, and only while no whole line is at hand. So if the machine stops at a line, fewer than `piece` bytes
/// beyond that line's end were taken.
///
/// What the machine adds may be gathered, and all of it is written before the source is asked for more bytes, before a
/// line that isn't known to be quiet is taken, before the next line once 65,536 bytes or more are gathered, and before
/// `feed` returns. So whoever writes a line and waits gets what it adds: the source is asked by one call alone, which
/// requires that a whole line is at hand or nothing is gathered. After a `WriteFault` the machine may have taken quiet lines
/// after the one whose addition was cut.
pub fn feed<M: LineMachine, S: Source, K: Sink>(
    alloc: Global,
    machine: &mut M,
    source: &mut S,
    sink: &mut K,
    piece: usize,
) -> Feeding<M::Stop>
    requires ready { M.ready machine.old }
    requires piece { (1 ≤ piece) × (piece ≤ MAX_PIECE) }
    ensures fed { HasFed M.takes M.ends M.quiet piece result machine.old machine.new (S.rest source.old) (S.rest source.new) (K.text sink.old) (K.text sink.new) }
    ensures read { result ≡ Feeding.ReadFault → HasCause (S.faults source.old) (S.faults source.new) }
    ensures write { result ≡ Feeding.WriteFault → HasCause (K.faults sink.old) (K.faults sink.new) }
    ensures source_counts { S.faults source.old ≤ S.faults source.new }
    ensures sink_counts { K.faults sink.old ≤ K.faults sink.new }
{
    let mut reader = LineReader::new(alloc, MAX_LINE, piece);
    let mut out = Bytes::new(alloc);
    // No source gives more lines than this.
    for _turn in 0..u64::MAX {
        // Without a whole line at hand the source is asked, and may wait for what was added so far.
        let asks = !reader.finds_line();
        if hand_on_if(asks, sink, &mut out).is_err() {
            return Feeding::WriteFault;
        }
        match next_line(&mut reader, source, &out) {
            Ok(true) => {}
            Ok(false) => return feed_end(alloc, machine, sink, &mut out),
            Err(FetchFault::ReadFault) => return Feeding::ReadFault,
            Err(FetchFault::Memory) => return Feeding::Memory,
        }
        let is_last = reader.is_last();
        match feed_line(
            alloc,
            machine,
            sink,
            &mut out,
            reader.line(),
            reader.after_line(),
        ) {
            Ok(()) => {}
            Err(how) => return how,
        }
        if is_last {
            if hand_on(sink, &mut out).is_err() {
                return Feeding::WriteFault;
            }
            return feed_end(alloc, machine, sink, &mut out);
        }
        reader.advance();
    }
    if hand_on(sink, &mut out).is_err() {
        return Feeding::WriteFault;
    }
    Feeding::Memory
}

// Takes the next line of a source, as `LineReader::fetch` does. Without a whole line at hand the source is asked, and may
// wait: so nothing may be gathered then. `feed` and `feed_through` ask a source by this call alone.
pub(crate) fn next_line<S: Source>(
    reader: &mut LineReader,
    source: &mut S,
    _out: &Bytes,
) -> Result<bool, FetchFault>
    requires handed_on { (position_or_len is_line_feed reader.old.bytes < length reader.old.bytes) ⊎ (_out.now ≡ []) }
    ensures kept { (text : List ℕ) → IsShortened reader.old.limit text reader.old.bytes → IsFetched reader.old.limit text reader.new.bytes (S.rest source.old) (S.rest source.new) }
    ensures limit { reader.new.limit ≡ reader.old.limit }
    ensures piece { reader.new.piece ≡ reader.old.piece }
    ensures ahead { length (after_first is_line_feed reader.new.bytes) < reader.new.piece }
    ensures ready { position_or_len is_line_feed reader.old.bytes < length reader.old.bytes → (result ≡ Ok true) × (reader.new ≡ reader.old) × (source.new ≡ source.old) }
    ensures found { result ≡ Ok true → (position_or_len is_line_feed reader.new.bytes < length reader.new.bytes) ⊎ ((0 < length reader.new.bytes) × ((left : List ℕ) → S.rest source.new ≡ Some left → left ≡ [])) }
    ensures ended { result ≡ Ok false → (reader.new.bytes ≡ []) × ((left : List ℕ) → S.rest source.new ≡ Some left → left ≡ []) }
    ensures unfinished { result ≡ Err FetchFault.ReadFault → position_or_len is_line_feed reader.new.bytes ≡ length reader.new.bytes }
    ensures cause { result ≡ Err FetchFault.ReadFault → HasCause (S.faults source.old) (S.faults source.new) }
    ensures counts { S.faults source.old ≤ S.faults source.new }
{
    reader.fetch(source)
}

// Hands a line to the machine, and gathers what it adds. What was gathered before is written first, if there is much of it
// or the line may not be quiet; and it is written if the machine stops.
fn feed_line<M: LineMachine, K: Sink>(
    alloc: Global,
    machine: &mut M,
    sink: &mut K,
    out: &mut Bytes,
    line: &[u8],
    after: &[u8],
) -> Result<(), Feeding<M::Stop>>
    requires { M.ready machine.old }
    ensures ok { (whole : List ℕ) → line.now ≡ front_of_line whole → OnOk result ((t : List ℕ) × M.takes machine.old whole machine.new (Ok t) × Gathers M.quiet machine.old machine.new (K.text sink.old) (K.text sink.new) out.old out.new t) }
    ensures ready { OnOk result (M.ready machine.new) }
    ensures err { (whole : List ℕ) → line.now ≡ front_of_line whole → IfErr result (λ how. StopsGathering M.takes M.quiet how machine.old whole machine.new (K.text sink.old) (K.text sink.new) out.old) }
    ensures unstopped { result ≡ Err Feeding.ReadFault → ⊥ }
    ensures cause { result ≡ Err Feeding.WriteFault → HasCause (K.faults sink.old) (K.faults sink.new) }
    ensures counts { K.faults sink.old ≤ K.faults sink.new }
{
    let is_due = is_due_before(machine, out, line);
    if hand_on_if(is_due, sink, out).is_err() {
        return Err(Feeding::WriteFault);
    }
    match machine.take_line(alloc, AtHand { line, after }, out) {
        Ok(()) => Ok(()),
        Err(why) => {
            if hand_on(sink, out).is_err() {
                return Err(Feeding::WriteFault);
            }
            Err(Feeding::Stopped(why))
        }
    }
}

// Whether what was gathered is to be written before this line is taken: there is much of it, or the line may not be quiet.
pub(crate) fn is_due_before<M: LineMachine>(machine: &M, out: &Bytes, line: &[u8]) -> bool
    ensures { result ≡ false → IsQuietLine M.takes M.quiet machine.now line.now × (length out.now < max_gathered) }
{
    !machine.is_quiet(line) || out.len() >= FULL
}

// Writes all that was gathered, if it is due.
fn hand_on_if<K: Sink>(is_due: bool, sink: &mut K, out: &mut Bytes) -> Result<(), IoFailed>
    ensures ok { OnOk result (HandsOn (K.text sink.old) (K.text sink.new) out.old out.new) }
    ensures empty { IsTrue is_due → OnOk result (out.new ≡ []) }
    ensures cut_short { OnErr result (IsCutShort (K.text sink.old) (K.text sink.new) out.old) }
    ensures cause { OnErr result (HasCause (K.faults sink.old) (K.faults sink.new)) }
    ensures counts { K.faults sink.old ≤ K.faults sink.new }
{
    if !is_due {
        return Ok(());
    }
    hand_on(sink, out)
}

// Writes all that was gathered.
fn hand_on<K: Sink>(sink: &mut K, out: &mut Bytes) -> Result<(), IoFailed>
    ensures ok { OnOk result (Appends (K.text sink.old) (K.text sink.new) out.old) }
    ensures empty { OnOk result (out.new ≡ []) }
    ensures cut_short { OnErr result (IsCutShort (K.text sink.old) (K.text sink.new) out.old) }
    ensures cause { OnErr result (HasCause (K.faults sink.old) (K.faults sink.new)) }
    ensures counts { K.faults sink.old ≤ K.faults sink.new }
{
    put_all(sink, out.as_slice())?;
    out.clear();
    Ok(())
}

// Hands the end of the input to the machine, and what it adds to the sink.
fn feed_end<M: LineMachine, K: Sink>(
    alloc: Global,
    machine: &mut M,
    sink: &mut K,
    out: &mut Bytes,
) -> Feeding<M::Stop>
    requires { M.ready machine.old }
    ensures ended { EndsAfter M.ends result machine.old machine.new (K.text sink.old) (K.text sink.new) }
    ensures cause { result ≡ Feeding.WriteFault → HasCause (K.faults sink.old) (K.faults sink.new) }
    ensures counts { K.faults sink.old ≤ K.faults sink.new }
{
    out.clear();
    match machine.take_end(alloc, out) {
        Ok(()) => {}
        Err(why) => return Feeding::Stopped(why),
    }
    if put_all(sink, out.as_slice()).is_err() {
        return Feeding::WriteFault;
    }
    Feeding::Done
}
