// A checkpoint holds all nodes that are kept at one moment, so that the records before it aren't needed.
ghost use Rattle.std.specs.Prelude.{◌≡◌, ◌≤◌, ◌<◌, ◌-◌, ◌^◌, IfOk};
ghost use Rattle.jf_payload.specs.Reading.{Gives, numbers_at, are_within, checkpoint_at};

use crate::fault::RecordFault;
use crate::fields::number_of;
use crate::lists::{hashes_of, live_list_of};
use crate::records::Record;
use jf_codec::Format;
use std::alloc::Global;

/// The numbers at the front of a checkpoint.
#[derive(Clone, Copy)]
struct Numbers {
    generation: u64,
    base: u64,
    floor: u64,
    head: u64,
}

// Whether the generation is at least 1; base, floor and head are in order; generation and head are at most 2^64 - 2.
fn are_within(n: Numbers) -> bool
    ensures { result ≡ are_within (((n.generation, n.base), n.floor), n.head) }
{
    1 <= n.generation
        && n.generation < u64::MAX
        && n.base <= n.floor
        && n.floor <= n.head
        && n.head < u64::MAX
}

// The four numbers at the front of a checkpoint.
#[tactic(auto, unfolding(crate::specs::Reading::numbers_at))]
fn numbers_of(bytes: &[u8]) -> Result<(Numbers, &[u8]), RecordFault>
    ensures read { Gives (λ x. ((((x.0.generation, x.0.base), x.0.floor), x.0.head), x.1.now)) result (numbers_at bytes.now) }
    ensures ordered { IfOk result (λ x. (x.0.base ≤ x.0.head) × (x.0.head < 2 ^ 64 - 1)) }
{
    let (generation, rest) = number_of(bytes)?;
    let (base, rest) = number_of(rest)?;
    let (floor, rest) = number_of(rest)?;
    let (head, rest) = number_of(rest)?;
    let numbers = Numbers {
        generation,
        base,
        floor,
        head,
    };
    if !are_within(numbers) {
        return Err(RecordFault::Bad);
    }
    Ok((numbers, rest))
}

/// A checkpoint: its numbers, a root for each version from the base to the head, and its nodes.
#[tactic(auto, unfolding(crate::specs::Reading::checkpoint_at))]
pub(crate) fn checkpoint_of(
    alloc: Global,
    format: Format,
    bytes: &[u8],
) -> Result<(Record, &[u8]), RecordFault>
    ensures { Gives (λ x. (x.0, x.1.now)) result (checkpoint_at format bytes.now) }
{
    let (n, rest) = numbers_of(bytes)?;
    let (roots, rest) = hashes_of(alloc, n.head - n.base + 1, rest)?;
    let (nodes, rest) = live_list_of(alloc, format, rest)?;
    let record = Record::Checkpoint {
        generation: n.generation,
        base: n.base,
        floor: n.floor,
        head: n.head,
        roots,
        nodes,
    };
    Ok((record, rest))
}
