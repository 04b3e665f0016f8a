// The first record of a side, the end of its records, and the number at the front of a payload.
ghost use Rattle.std.specs.Prelude.{◌≡◌, ◌<◌, ◌≤◌, ◌^◌, length};
ghost use Rattle.jf_frame.specs.Framing.{end_of, number_of};
ghost use Rattle.jf_pair.specs.Files.{is_begun, is_checkpoint};

use jf_frame::Log;

// Whether there is no record, or the first one is a checkpoint whose payload has at least 8 bytes.
#[tactic(auto, using(jf_pair::proofs::First::begun_none, jf_pair::proofs::First::begun_some))]
pub(crate) fn is_begun(log: &Log) -> bool
    ensures { result ≡ is_begun log.now.records }
{
    if log.count() == 0 {
        return true;
    }
    let first = log.record(0);
    is_checkpoint(first.kind) && first.payload.len() >= 8
}

// Whether the kind is a checkpoint's: 4 with nodes of format 1, 5 with nodes of format 2.
pub(crate) fn is_checkpoint(kind: u8) -> bool
    ensures { result ≡ is_checkpoint kind }
{
    kind == 4 || kind == 5
}

// The offset of the gate after the last record, in bytes; 0 without a record.
#[tactic(auto, using(crate::proofs::Ends::end_none))]
pub(crate) fn end_of(log: &Log) -> u64
    requires { end_of log.now.records < 2 ^ 64 }
    ensures { result ≡ end_of log.now.records }
{
    let count = log.count();
    if count == 0 {
        return 0;
    }
    let last = log.record(count - 1);
    last.offset + 10 + last.payload.len() as u64
}

// The number in the first eight bytes, the highest first.
#[tactic(auto, using(jf_pair::proofs::First::first_number))]
pub(crate) fn number_in(bytes: &[u8]) -> u64
    requires { 8 ≤ length bytes.now }
    ensures { result ≡ number_of bytes.now }
{
    u64::from_be_bytes([
        bytes[0], bytes[1], bytes[2], bytes[3], bytes[4], bytes[5], bytes[6], bytes[7],
    ])
}
