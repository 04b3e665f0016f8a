// The lines of a source, taken by a machine, and what they add, put into a sink whose faults don't end it.
ghost use Rattle.std.specs.Prelude.{◌≡◌, ◌≢◌, ◌⊎◌, ◌-◌, ◌<◌, ◌≤◌, ◌^◌, Err, OnOk, OnErr, IfErr, List, ℕ, Ok, [], Some, IsTrue, true};
ghost use Rattle.jf_path.specs.Faults.{HasCause};
ghost use Rattle.jf_io.specs.declared.piece.TheConstants.{MAX_PIECE};
ghost use Rattle.jf_input.specs.Feeds.{front_of_line, HandsOn, Gathers, EndsAfter};
ghost use Rattle.jf_input.specs.FeedsThrough.{IsPutNext, GoesThrough};

use crate::feeding::{Feeding, is_due_before, next_line};
use crate::machine::{AtHand, LineMachine};
use jf_io::{FetchFault, LineReader, Sink, Source, put_all};
use jf_path::Bytes;
use jf_text::MAX_LINE;
use std::alloc::Global;

/// How a machine was fed whose sink can't end it, and whether the sink failed.
pub struct FedThrough<F> {
    /// How it was fed, which is never `WriteFault`.
    pub how: Feeding<F>,
    /// Whether the sink failed, and so has a front alone of what was added.
    pub is_cut: bool,
}

impl<F> FedThrough<F> {
    // The pair of both.
    fn new(how: Feeding<F>, is_cut: bool) -> FedThrough<F>
        ensures { result ≡ record { how = how; is_cut = is_cut } }
    {
        FedThrough { how, is_cut }
    }
}

/// Hands the lines of a source to a machine, and what it adds to a sink, as `feed` does and at the same moments; but a fault
/// of the sink doesn't end it. After the first one the sink is given nothing more, and the machine takes the rest of the
/// lines, and the end, all the same. Input is taken in pieces of at most `piece` bytes, 1 to `MAX_PIECE`.
///
/// The source is asked by the same call as in `feed`, which requires that a whole line is at hand or nothing is gathered. So
/// what was added has been put into the sink, or dropped after a fault, before more bytes are asked for.
pub fn feed_through<M: LineMachine, S: Source, K: Sink>(
    alloc: Global,
    machine: &mut M,
    source: &mut S,
    sink: &mut K,
    piece: usize,
) -> FedThrough<M::Stop>
    requires ready { M.ready machine.old }
    requires piece { (1 ≤ piece) × (piece ≤ MAX_PIECE) }
    ensures fed { GoesThrough M.takes M.ends M.quiet piece result.how result.is_cut machine.old machine.new (S.rest source.old) (S.rest source.new) (K.text sink.old) (K.text sink.new) }
    ensures unstopped { result.how ≢ Feeding.WriteFault }
    ensures read { result.how ≡ Feeding.ReadFault → HasCause (S.faults source.old) (S.faults source.new) }
    ensures write { result.is_cut ≡ true → HasCause (K.faults sink.old) (K.faults sink.new) }
    ensures source_counts { S.faults source.old ≤ S.faults source.new }
    ensures sink_counts { K.faults sink.old ≤ K.faults sink.new }
{
    let mut reader = LineReader::new(alloc, MAX_LINE, piece);
    let mut out = Bytes::new(alloc);
    let mut is_cut = false;
    // No source gives more lines than this.
    for _turn in 0..u64::MAX {
        // Without a whole line at hand the source is asked, and may wait for what was added so far.
        let asks = !reader.finds_line();
        put_through_if(asks, sink, &mut out, &mut is_cut);
        match next_line(&mut reader, source, &out) {
            Ok(true) => {}
            Ok(false) => return end_through(alloc, machine, sink, &mut out, is_cut),
            Err(FetchFault::ReadFault) => return FedThrough::new(Feeding::ReadFault, is_cut),
            Err(FetchFault::Memory) => return FedThrough::new(Feeding::Memory, is_cut),
        }
        let is_last = reader.is_last();
        match line_through(
            alloc,
            machine,
            sink,
            &mut out,
            &mut is_cut,
            reader.line(),
            reader.after_line(),
        ) {
            Ok(()) => {}
            Err(why) => return FedThrough::new(Feeding::Stopped(why), is_cut),
        }
        if is_last {
            put_through(sink, &mut out, &mut is_cut);
            return end_through(alloc, machine, sink, &mut out, is_cut);
        }
        reader.advance();
    }
    put_through(sink, &mut out, &mut is_cut);
    FedThrough::new(Feeding::Memory, is_cut)
}

// Hands a line to the machine, and gathers what it adds. What was gathered before is put through first, if there is much
// of it or the line may not be quiet; and it is put through if the machine stops. In `ok`, `put` is what was put through.
fn line_through<M: LineMachine, K: Sink>(
    alloc: Global,
    machine: &mut M,
    sink: &mut K,
    out: &mut Bytes,
    is_cut: &mut bool,
    line: &[u8],
    after: &[u8],
) -> Result<(), M::Stop>
    requires { M.ready machine.old }
    ensures ok { OnOk result ((put : List ℕ) × IsPutNext is_cut.old is_cut.new (K.text sink.old) (K.text sink.new) put × ((whole : List ℕ) → line.now ≡ front_of_line whole → (t : List ℕ) × M.takes machine.old whole machine.new (Ok t) × Gathers M.quiet machine.old machine.new (Some []) (Some put) out.old out.new t)) }
    ensures ready { OnOk result (M.ready machine.new) }
    ensures err { (whole : List ℕ) → line.now ≡ front_of_line whole → IfErr result (λ why. M.takes machine.old whole machine.new (Err why)) }
    ensures put { OnErr result (IsPutNext is_cut.old is_cut.new (K.text sink.old) (K.text sink.new) out.old) }
    ensures cause { is_cut.new ≡ true → (is_cut.old ≡ true) ⊎ HasCause (K.faults sink.old) (K.faults sink.new) }
    ensures counts { K.faults sink.old ≤ K.faults sink.new }
{
    let is_due = is_due_before(machine, out, line);
    put_through_if(is_due, sink, out, is_cut);
    match machine.take_line(alloc, AtHand { line, after }, out) {
        Ok(()) => Ok(()),
        Err(why) => {
            put_through(sink, out, is_cut);
            Err(why)
        }
    }
}

// Puts all that was gathered through, if it is due. `put` is what was put through.
fn put_through_if<K: Sink>(is_due: bool, sink: &mut K, out: &mut Bytes, is_cut: &mut bool)
    ensures put { (put : List ℕ) × IsPutNext is_cut.old is_cut.new (K.text sink.old) (K.text sink.new) put × HandsOn (Some []) (Some put) out.old out.new }
    ensures empty { IsTrue is_due → out.new ≡ [] }
    ensures cause { is_cut.new ≡ true → (is_cut.old ≡ true) ⊎ HasCause (K.faults sink.old) (K.faults sink.new) }
    ensures counts { K.faults sink.old ≤ K.faults sink.new }
{
    if is_due {
        put_through(sink, out, is_cut);
    }
}

// Puts all that was gathered into the sink, unless a fault cut what was put before. It is dropped after a fault.
fn put_through<K: Sink>(sink: &mut K, out: &mut Bytes, is_cut: &mut bool)
    ensures put { IsPutNext is_cut.old is_cut.new (K.text sink.old) (K.text sink.new) out.old }
    ensures unchanged { is_cut.old ≡ true → sink.new ≡ sink.old }
    ensures empty { out.new ≡ [] }
    ensures cause { is_cut.new ≡ true → (is_cut.old ≡ true) ⊎ HasCause (K.faults sink.old) (K.faults sink.new) }
    ensures counts { K.faults sink.old ≤ K.faults sink.new }
{
    if !*is_cut {
        *is_cut = put_all(sink, out.as_slice()).is_err();
    }
    out.clear();
}

// Hands the end of the input to the machine, and puts what it adds through. `put` is what was put through.
fn end_through<M: LineMachine, K: Sink>(
    alloc: Global,
    machine: &mut M,
    sink: &mut K,
    out: &mut Bytes,
    mut is_cut: bool,
) -> FedThrough<M::Stop>
    requires { M.ready machine.old }
    ensures ended { (put : List ℕ) × IsPutNext is_cut result.is_cut (K.text sink.old) (K.text sink.new) put × EndsAfter M.ends result.how machine.old machine.new (Some []) (Some put) }
    ensures unstopped { result.how ≢ Feeding.WriteFault }
    ensures unread_fault { result.how ≢ Feeding.ReadFault }
    ensures cause { result.is_cut ≡ true → (is_cut ≡ true) ⊎ HasCause (K.faults sink.old) (K.faults sink.new) }
    ensures counts { K.faults sink.old ≤ K.faults sink.new }
{
    out.clear();
    match machine.take_end(alloc, out) {
        Ok(()) => {}
        Err(why) => return FedThrough::new(Feeding::Stopped(why), is_cut),
    }
    put_through(sink, out, &mut is_cut);
    FedThrough::new(Feeding::Done, is_cut)
}
