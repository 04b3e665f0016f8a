// A record is read from its kind and all of its payload; a payload that isn't exactly so is bad.
ghost use Rattle.std.specs.Prelude.{◌≡◌, ◌⊎◌, Ok, Err, IfOk};
ghost use Rattle.jf_payload.specs.Spelling.{IsSpelling};
ghost use Rattle.jf_payload.specs.Reading.{Gives, record_at, whole_record_in, spelled_record};

use crate::checkpoint::checkpoint_of;
use crate::fault::RecordFault;
use crate::fields::number_of;
use crate::kinds::{COMMIT, FLOOR, GROUP, checkpoint_kind};
use crate::landings::{commit_of, group_of};
use crate::records::Record;
use jf_codec::Format;
use std::alloc::Global;

// The record of a kind at the front of the bytes.
#[tactic(auto, unfolding(crate::specs::Reading::record_at))]
fn record_of(
    alloc: Global,
    format: Format,
    kind: u8,
    bytes: &[u8],
) -> Result<(Record, &[u8]), RecordFault>
    ensures { Gives (λ x. (x.0, x.1.now)) result (record_at format kind bytes.now) }
{
    if kind == FLOOR {
        let (floor, rest) = number_of(bytes)?;
        return Ok((Record::Floor(floor), rest));
    }
    if kind == COMMIT {
        let (commit, rest) = commit_of(alloc, format, bytes)?;
        return Ok((Record::NodeCommit(commit), rest));
    }
    if kind == GROUP {
        let (commits, rest) = group_of(alloc, format, bytes)?;
        return Ok((Record::Group(commits), rest));
    }
    if kind != checkpoint_kind(format) {
        return Err(RecordFault::Bad);
    }
    checkpoint_of(alloc, format, bytes)
}

// The record of a kind whose spelling all of the payload is.
#[tactic(auto, unfolding(crate::specs::Reading::whole_record_in))]
fn whole_of(alloc: Global, format: Format, kind: u8, payload: &[u8]) -> Result<Record, RecordFault>
    ensures { Gives (λ r. r) result (whole_record_in format kind payload.now) }
{
    let (record, rest) = record_of(alloc, format, kind, payload)?;
    if !rest.is_empty() {
        return Err(RecordFault::Bad);
    }
    Ok(record)
}

/// The record of this kind whose spelling all of `payload` is, in a file of this format. `Bad` only if there is no such
/// record; an internal node or a checkpoint of the other format makes it so.
pub fn decode(
    alloc: Global,
    kind: u8,
    payload: &[u8],
    format: Format,
) -> Result<Record, RecordFault>
    ensures found { IfOk result (λ r. IsSpelling format r kind payload.now) }
    ensures bad { result ≡ Err RecordFault.Bad → (r : Record) → IsSpelling format r kind payload.now → ⊥ }
    ensures spelled { (r : Record) → IsSpelling format r kind payload.now → (result ≡ Ok r) ⊎ (result ≡ Err RecordFault.Memory) }
    ensures exact { Gives (λ r. r) result (spelled_record format kind payload.now) }
{
    whole_of(alloc, format, kind, payload)
}
