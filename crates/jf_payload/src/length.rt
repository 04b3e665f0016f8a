// The number of bytes of a payload is known before it is written, so that its frame is written once, into room of its
// size.
ghost use Rattle.std.specs.Prelude.{◌≡◌, ◌+◌, flat_map, length, IfOk};
ghost use Rattle.std.specs.List.{AllByRecursion};
ghost use Rattle.jf_path.specs.Keys.{IsKey};
ghost use Rattle.jf_codec.specs.Spelling.{name_bytes, IsNode};
ghost use Rattle.jf_codec.specs.Counted.{in_format};
ghost use Rattle.jf_payload.specs.Spelling.{IsRecord, record_bytes, commit_bytes, fresh_bytes, live_bytes};
ghost use Rattle.jf_payload.specs.Counted.{record_in};

use crate::records::{Commit, Record};
use jf_codec::{Format, name_len, node_len};
use jf_path::{Memory, NodeName, PlainNode};

/// The sum of two numbers of bytes. `Memory` if it is above what a number holds: no buffer has that many.
pub fn sum_within(a: u64, b: u64) -> Result<u64, Memory>
    ensures { IfOk result (λ n. n ≡ a + b) }
{
    a.checked_add(b).ok_or(Memory)
}

// The number of bytes of hashes.
#[tactic(auto, using(crate::proofs::Lengths::hashes_length))]
fn hashes_len(hashes: &[[u8; 32]]) -> Result<u64, Memory>
    requires { AllByRecursion IsKey hashes.now }
    ensures { IfOk result (λ n. n ≡ length (flat_map (λ h. h) hashes.now)) }
{
    (hashes.len() as u64).checked_mul(32).ok_or(Memory)
}

/// The number of bytes of names.
pub fn names_len(names: &[NodeName]) -> Result<u64, Memory>
    ensures { IfOk result (λ n. n ≡ length (flat_map name_bytes names.now)) }
{
    let mut length = 0;
    for name in names {
        length = sum_within(length, name_len(name))?;
    }
    Ok(length)
}

/// The number of bytes of nodes after their names. What the format keeps of each node must have a spelling.
pub fn fresh_len(format: Format, nodes: &[(NodeName, PlainNode)]) -> Result<u64, Memory>
    requires { AllByRecursion (λ x. IsNode format (in_format format x.1)) nodes.now }
    ensures { IfOk result (λ n. n ≡ length (flat_map (fresh_bytes format) nodes.now)) }
{
    let mut length = 0;
    for item in nodes {
        length = sum_within(length, name_len(&item.0))?;
        length = sum_within(length, node_len(format, &item.1))?;
    }
    Ok(length)
}

// The number of bytes of nodes after their names, and of the versions since which they are stale.
#[tactic(auto, unfolding(jf_path::specs::Numbers::eight_bytes))]
fn live_len(format: Format, nodes: &[(NodeName, PlainNode, u64)]) -> Result<u64, Memory>
    requires { AllByRecursion (λ x. IsNode format (in_format format x.1)) nodes.now }
    ensures { IfOk result (λ n. n ≡ length (flat_map (live_bytes format) nodes.now)) }
{
    let mut length = 0;
    for item in nodes {
        length = sum_within(length, name_len(&item.0))?;
        length = sum_within(length, node_len(format, &item.1))?;
        length = sum_within(length, 8)?;
    }
    Ok(length)
}

// The number of bytes of a landing: version, root, and two lists after their counts.
#[tactic(auto, unfolding(crate::specs::Spelling::commit_bytes, jf_path::specs::Numbers::eight_bytes))]
fn commit_len(format: Format, commit: &Commit) -> Result<u64, Memory>
    requires { AllByRecursion (λ x. IsNode format (in_format format x.1)) commit.now.fresh }
    ensures { IfOk result (λ n. n ≡ length (commit_bytes format commit.now)) }
{
    let fresh = fresh_len(format, commit.fresh.as_slice())?;
    let stale = names_len(commit.stale.as_slice())?;
    sum_within(sum_within(56, fresh)?, stale)
}

// The number of bytes of landings.
fn commits_len(format: Format, commits: &[Commit]) -> Result<u64, Memory>
    requires { AllByRecursion (λ c. AllByRecursion (λ x. IsNode format (in_format format x.1)) c.fresh) commits.now }
    ensures { IfOk result (λ n. n ≡ length (flat_map (commit_bytes format) commits.now)) }
{
    let mut length = 0;
    for commit in commits {
        length = sum_within(length, commit_len(format, commit)?)?;
    }
    Ok(length)
}

/// The number of bytes of the payload of a record. What the format keeps of the record must have a spelling.
#[tactic(auto, unfolding(crate::specs::Spelling::record_bytes, jf_path::specs::Numbers::eight_bytes))]
pub(crate) fn record_len(entry: &Record, format: Format) -> Result<u64, Memory>
    requires { IsRecord format (record_in format entry.now) }
    ensures { IfOk result (λ n. n ≡ length (record_bytes format entry.now)) }
{
    match entry {
        Record::Floor(_) => Ok(8),
        Record::NodeCommit(commit) => commit_len(format, commit),
        Record::Checkpoint { roots, nodes, .. } => {
            let roots = hashes_len(roots.as_slice())?;
            let nodes = live_len(format, nodes.as_slice())?;
            sum_within(sum_within(40, roots)?, nodes)
        }
        Record::Group(commits) => sum_within(8, commits_len(format, commits.as_slice())?),
    }
}
