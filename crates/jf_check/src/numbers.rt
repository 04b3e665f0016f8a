// The numbers that the records of a side tell.
ghost use Rattle.std.specs.Prelude.{◌≡◌};
ghost use Rattle.jf_frame.specs.Framed.{framed_value};
ghost use Rattle.jf_check.specs.Numbers.{checkpoint_numbers, numbers_after, numbers_by, numbers_in};

use crate::first::{is_checkpoint, number_in};
use jf_frame::{FramedRef, Log};

// The kinds of records that tell a number (docs/FORMATS.md, "Records of nodes in bytes").
const FLOOR: u8 = 2;

const LANDING: u8 = 3;

const LANDINGS: u8 = 6;

/// The numbers that a side's records tell: the generation and base of its checkpoint, and floor and head after its last
/// record.
#[derive(Clone, Copy, Debug, PartialEq, Eq)]
pub struct SideNumbers {
    pub generation: u64,
    pub base: u64,
    pub floor: u64,
    pub head: u64,
}

// The numbers that a log's records tell; `None` if there is no record, or the first one tells none.
pub(crate) fn numbers_in(log: &Log) -> Option<SideNumbers>
    ensures { result ≡ numbers_in log.now.records }
{
    if log.count() == 0 {
        return None;
    }
    let mut numbers = checkpoint_numbers(log.record(0))?;
    for place in 1..log.count() {
        numbers = numbers_after(numbers, log.record(place));
    }
    Some(numbers)
}

// The numbers of a checkpoint; `None` if the record is none, or its payload ends before they do.
fn checkpoint_numbers(first: FramedRef<'_>) -> Option<SideNumbers>
    ensures { result ≡ checkpoint_numbers (framed_value first.entry) }
{
    let payload = first.payload;
    if !is_checkpoint(first.kind) || payload.len() < 32 {
        return None;
    }
    Some(SideNumbers {
        generation: number_in(payload),
        base: number_in(&payload[8..]),
        floor: number_in(&payload[16..]),
        head: number_in(&payload[24..]),
    })
}

// The numbers after a later record; one of fewer than 8 bytes tells none.
fn numbers_after(numbers: SideNumbers, later: FramedRef<'_>) -> SideNumbers
    ensures { result ≡ numbers_after numbers (framed_value later.entry) }
{
    if later.payload.len() < 8 {
        return numbers;
    }
    numbers_by(later.kind, number_in(later.payload), numbers)
}

// The effect of a record of a kind on the numbers, by the number at its front.
fn numbers_by(kind: u8, number: u64, numbers: SideNumbers) -> SideNumbers
    ensures { result ≡ numbers_by kind number numbers }
{
    let SideNumbers {
        generation,
        base,
        floor,
        head,
    } = numbers;
    let (floor, head) = match kind {
        FLOOR => (number, head),
        LANDING => (floor, number),
        LANDINGS => (floor, head.saturating_add(number)),
        _ => (floor, head),
    };
    SideNumbers {
        generation,
        base,
        floor,
        head,
    }
}
