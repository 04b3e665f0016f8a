// Writing a record gives its whole frame, ready to be appended to a log. Its length is computed first, so that it is
// written once, into room of exactly its size.
ghost use Rattle.std.specs.Prelude.{◌≡◌, ◌++◌, flat_map, length, IfOk, OnOk};
ghost use Rattle.std.specs.List.{AllByRecursion};
ghost use Rattle.jf_frame.specs.Framing.{IsFrame};
ghost use Rattle.jf_codec.specs.Spelling.{name_bytes, IsNode};
ghost use Rattle.jf_path.specs.Numbers.{eight_bytes};
ghost use Rattle.jf_codec.specs.Counted.{in_format};
ghost use Rattle.jf_payload.specs.Spelling.{IsRecord, kind_of, record_bytes, commit_bytes, fresh_bytes, live_bytes, list_bytes};
ghost use Rattle.jf_payload.specs.Counted.{record_in};

use crate::kinds::{CLOSED, COMMIT, FLOOR, GROUP, checkpoint_kind};
use crate::length::{record_len, sum_within};
use crate::records::{Commit, Record};
use jf_codec::{Format, put_name, put_node, put_u64};
use jf_path::{Bytes, Memory, NodeName, PlainNode};
use std::alloc::Global;

// Adds each hash.
fn put_hashes(out: &mut Bytes, hashes: &[[u8; 32]]) -> Result<(), Memory>
    ensures { OnOk result (out.new ≡ out.old ++ flat_map (λ h. h) hashes.now) }
{
    for hash in hashes {
        out.append(hash)?;
    }
    Ok(())
}

/// Adds each name. If memory runs out, some of them may follow what was in `out`.
pub fn put_names(out: &mut Bytes, names: &[NodeName]) -> Result<(), Memory>
    ensures { OnOk result (out.new ≡ out.old ++ flat_map name_bytes names.now) }
{
    for name in names {
        put_name(out, name)?;
    }
    Ok(())
}

/// Adds each node after its name. What the format keeps of each node must have a spelling. If memory runs out, some of it may
/// follow what was in `out`.
pub fn put_fresh(
    out: &mut Bytes,
    format: Format,
    nodes: &[(NodeName, PlainNode)],
) -> Result<(), Memory>
    requires { AllByRecursion (λ x. IsNode format (in_format format x.1)) nodes.now }
    ensures { OnOk result (out.new ≡ out.old ++ flat_map (fresh_bytes format) nodes.now) }
{
    for item in nodes {
        put_name(out, &item.0)?;
        put_node(out, format, &item.1)?;
    }
    Ok(())
}

// Adds each node after its name, and the version since which it is stale.
fn put_live(
    out: &mut Bytes,
    format: Format,
    nodes: &[(NodeName, PlainNode, u64)],
) -> Result<(), Memory>
    requires { AllByRecursion (λ x. IsNode format (in_format format x.1)) nodes.now }
    ensures { OnOk result (out.new ≡ out.old ++ flat_map (live_bytes format) nodes.now) }
{
    for item in nodes {
        put_name(out, &item.0)?;
        put_node(out, format, &item.1)?;
        put_u64(out, item.2)?;
    }
    Ok(())
}

// Adds a landing.
#[tactic(auto, unfolding(crate::specs::Spelling::commit_bytes))]
fn put_commit(out: &mut Bytes, format: Format, commit: &Commit) -> Result<(), Memory>
    requires { AllByRecursion (λ x. IsNode format (in_format format x.1)) commit.now.fresh }
    ensures { OnOk result (out.new ≡ out.old ++ commit_bytes format commit.now) }
{
    put_u64(out, commit.version)?;
    out.append(&commit.root)?;
    put_u64(out, commit.fresh.len())?;
    put_fresh(out, format, commit.fresh.as_slice())?;
    put_u64(out, commit.stale.len())?;
    put_names(out, commit.stale.as_slice())
}

// Adds each landing.
fn put_commits(out: &mut Bytes, format: Format, commits: &[Commit]) -> Result<(), Memory>
    requires { AllByRecursion (λ c. AllByRecursion (λ x. IsNode format (in_format format x.1)) c.fresh) commits.now }
    ensures { OnOk result (out.new ≡ out.old ++ flat_map (commit_bytes format) commits.now) }
{
    for commit in commits {
        put_commit(out, format, commit)?;
    }
    Ok(())
}

// Adds the payload of a record.
#[tactic(auto, unfolding(crate::specs::Spelling::record_bytes))]
fn put_record(out: &mut Bytes, format: Format, entry: &Record) -> Result<(), Memory>
    requires { IsRecord format (record_in format entry.now) }
    ensures { OnOk result (out.new ≡ out.old ++ record_bytes format entry.now) }
{
    match entry {
        Record::Floor(floor) => put_u64(out, *floor),
        Record::NodeCommit(commit) => put_commit(out, format, commit),
        Record::Checkpoint {
            generation,
            base,
            floor,
            head,
            roots,
            nodes,
        } => {
            put_u64(out, *generation)?;
            put_u64(out, *base)?;
            put_u64(out, *floor)?;
            put_u64(out, *head)?;
            put_hashes(out, roots.as_slice())?;
            put_u64(out, nodes.len())?;
            put_live(out, format, nodes.as_slice())
        }
        Record::Group(commits) => {
            put_u64(out, commits.len())?;
            put_commits(out, format, commits.as_slice())
        }
    }
}

// The kind of a record in a file of a format.
fn kind_of(entry: &Record, format: Format) -> u8
    ensures { result ≡ kind_of format entry.now }
{
    match entry {
        Record::Floor(_) => FLOOR,
        Record::NodeCommit(_) => COMMIT,
        Record::Checkpoint { .. } => checkpoint_kind(format),
        Record::Group(_) => GROUP,
    }
}

/// The frame of a record in a file of this format: kind, length, payload, and a closed gate. Format 1 leaves out the
/// counts of nodes. What the format keeps of the record must have a spelling.
pub fn encode(alloc: Global, entry: &Record, format: Format) -> Result<Bytes, Memory>
    requires { IsRecord format (record_in format entry.now) }
    ensures { IfOk result (λ bytes. IsFrame bytes (kind_of format entry.now) (record_bytes format entry.now)) }
{
    let length = record_len(entry, format)?;
    let mut out = Bytes::with_capacity(alloc, sum_within(length, 10)?)?;
    out.push(kind_of(entry, format))?;
    put_u64(&mut out, length)?;
    put_record(&mut out, format, entry)?;
    out.push(CLOSED)?;
    Ok(out)
}
