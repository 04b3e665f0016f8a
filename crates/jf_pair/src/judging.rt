// Which of two sides is live, by the generations of their first records, or where these are damaged.
ghost use Rattle.std.specs.Prelude.{◌≡◌, ◌≢◌, ℕ, ◌≤◌, length, true, false, Some, Ok, Err, IfOk, OnOk};
ghost use Rattle.jf_disk.specs.declared.side.Side.{Side};
ghost use Rattle.jf_frame.specs.Framing.{number_of};
ghost use Rattle.jf_pair.specs.Files.{is_checkpoint, is_begun, generation_of, are_level, live_side, damage_in};

use crate::fault::PairFault;
use jf_disk::Side;
use jf_frame::Log;

/// The live side of two that were read, or the first place of damage in their first records.
pub(crate) fn judge(a: &Log, b: &Log) -> Result<Side, PairFault>
    ensures begun_a { OnOk result (is_begun a.now.records ≡ true) }
    ensures begun_b { OnOk result (is_begun b.now.records ≡ true) }
    ensures apart { OnOk result (are_level a.now.records b.now.records ≡ false) }
    ensures live { IfOk result (λ side. side ≡ live_side a.now.records b.now.records) }
    ensures damaged { (side : Side) (at : ℕ) → result ≡ Err (PairFault.Damaged side at) → damage_in (Ok a.now.records) (Ok b.now.records) ≡ Some (side, at) }
    ensures unstopped { result ≢ Err PairFault.DiskFault }
{
    if !is_begun(a) {
        return Err(PairFault::Damaged {
            side: Side::A,
            offset: 0,
        });
    }
    if !is_begun(b) {
        return Err(on_b());
    }
    if are_level(a, b) {
        return Err(on_b());
    }
    Ok(live_side(a, b))
}

/// The damage of a first record of side B: it begins at offset 0.
fn on_b() -> PairFault
    ensures { result ≡ PairFault.Damaged Side.B 0 }
{
    PairFault::Damaged {
        side: Side::B,
        offset: 0,
    }
}

/// Whether there is no record, or the first one is a checkpoint whose payload has at least 8 bytes.
#[tactic(auto, using(crate::proofs::First::begun_none, crate::proofs::First::begun_some))]
fn is_begun(log: &Log) -> bool
    ensures { result ≡ is_begun log.now.records }
{
    if log.count() == 0 {
        return true;
    }
    let first = log.record(0);
    is_checkpoint(first.kind) && first.payload.len() >= 8
}

/// Whether the kind is a checkpoint's: 4 with nodes of format 1, 5 with nodes of format 2.
fn is_checkpoint(kind: u8) -> bool
    ensures { result ≡ is_checkpoint kind }
{
    kind == 4 || kind == 5
}

/// The generation of a side: the first eight bytes of its first payload; 0 without a record.
#[tactic(auto, using(crate::proofs::First::generation_none, crate::proofs::First::generation_some, crate::proofs::First::long_enough))]
fn generation_of(log: &Log) -> u64
    requires { is_begun log.now.records ≡ true }
    ensures { result ≡ generation_of log.now.records }
{
    if log.count() == 0 {
        return 0;
    }
    number_in(log.record(0).payload)
}

/// The number in the first eight bytes, the highest first.
#[tactic(auto, using(crate::proofs::First::first_number))]
fn number_in(bytes: &[u8]) -> u64
    requires { 8 ≤ length bytes.now }
    ensures { result ≡ number_of bytes.now }
{
    u64::from_be_bytes([
        bytes[0], bytes[1], bytes[2], bytes[3], bytes[4], bytes[5], bytes[6], bytes[7],
    ])
}

/// Whether both sides hold records and have one generation.
fn are_level(a: &Log, b: &Log) -> bool
    requires a { is_begun a.now.records ≡ true }
    requires b { is_begun b.now.records ≡ true }
    ensures { result ≡ are_level a.now.records b.now.records }
{
    a.count() > 0 && b.count() > 0 && generation_of(a) == generation_of(b)
}

/// The side with records, and of two such sides the one with the greater generation; side B if neither has records.
fn live_side(a: &Log, b: &Log) -> Side
    requires a { is_begun a.now.records ≡ true }
    requires b { is_begun b.now.records ≡ true }
    ensures { result ≡ live_side a.now.records b.now.records }
{
    if a.count() == 0 {
        return Side::B;
    }
    if b.count() == 0 || generation_of(b) < generation_of(a) {
        return Side::A;
    }
    Side::B
}
