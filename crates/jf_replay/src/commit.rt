// A landing that was read is taken exactly if it writes what a landing of the changes that are read off it writes. It is read
// as bytes, or as a commit.
ghost use Rattle.std.specs.Prelude.{◌≡◌, ◌≤◌, ◌^◌, ◌++◌, ℕ, List, IfOk, OnOk, OnErr, Err, length};
ghost use Rattle.std.specs.FinMap.{len};
ghost use Rattle.std.specs.List.{AllByRecursion};
ghost use Rattle.jf_path.specs.Limits.{max_value};
ghost use Rattle.jf_payload.specs.Spelling.{IsCommit, commit_bytes};
ghost use Rattle.jf_payload.specs.declared.records.Commit.{Commit};
ghost use Rattle.jf_standing.specs.Named.{AreEntries};
ghost use Rattle.jf_standing.specs.Standing.{with_commit};
ghost use Rattle.jf_standing.specs.Sound.{IsSound};
ghost use Rattle.jf_standing.specs.Taking.{Continues};
ghost use Rattle.jf_standing.specs.Landing.{fresh_leaves};
ghost use Rattle.jf_standing.specs.FormatLaws.{standing_in};
ghost use Rattle.jf_dir.specs.Directories.{IsLandingUpdate};
ghost use Rattle.jf_replay.specs.Next.{MayBeNext, map_by, read_map};

use crate::changes::{changes_in, leaves_in};
use crate::check_fault::CheckFault;
use crate::same::is_same;
use jf_codec::{CodecFault, Format};
use jf_dir::{Directory, NextVersion};
use jf_join::{FreeGate, Workers};
use jf_landing::scan_landing;
use jf_path::{Key, NodeName, SharedBytes};
use jf_payload::{Commit, kept_is_spelled, written_in_both};
use jf_standing::landings_are_spelled;
use jf_update::value_hashes;
use std::alloc::Global;
use std::thread::Threads;

/// The greatest head after which another version may land.
const LAST_HEAD: u64 = u64::MAX - 2;

/// The most entries of a map.
const MOST_ENTRIES: u64 = 1 << 63;

/// What the landing of the changes that are read off leaves and stale names would write. `Unsound` if no such landing may be
/// the next one.
fn next_of<H: Threads + Sync>(
    rt: &H,
    alloc: Global,
    directory: &Directory,
    leaves: &[(Key, SharedBytes)],
    stale: &[NodeName],
    workers: Workers,
) -> Result<NextVersion, CheckFault>
    requires entries { AreEntries leaves.now }
    requires short { AllByRecursion (λ e. length e.1 ≤ max_value) leaves.now }
    ensures landing { IfOk result (IsLandingUpdate directory.now (map_by directory.now leaves.now stale.now)) }
    ensures own { IfOk result (λ u. IsLandingUpdate directory.now u.snapshot.map u) }
    ensures room { IfOk result (λ u. len u.snapshot.map ≤ 2 ^ 63) }
    ensures unsound { result ≡ Err CheckFault.Unsound → MayBeNext directory.now leaves.now stale.now → ⊥ }
{
    if directory.head() > LAST_HEAD {
        return Err(CheckFault::Unsound);
    }
    let head = directory.newest();
    head.know();
    let entries = changes_in(alloc, head, leaves, stale)?;
    let hashes = value_hashes(rt, alloc, &entries, workers)?;
    let next = directory.next(rt, alloc, &entries, &hashes, workers, &FreeGate)?;
    if next.snapshot().count() > MOST_ENTRIES {
        return Err(CheckFault::Unsound);
    }
    Ok(next)
}

/// Takes a commit that was read in a file of this format, if it continues from the head and leaves a sound standing:
/// the changes that are read off it are landed on the directory, and all that the landing writes is compared with what
/// the commit writes. If it is refused, the directory is unchanged.
pub(crate) fn check<H: Threads + Sync>(
    rt: &H,
    alloc: Global,
    directory: &mut Directory,
    commit: &Commit,
    format: Format,
    workers: Workers,
) -> Result<(), CheckFault>
    requires spelled { IsCommit format commit.now }
    ensures taken { OnOk result (Continues (standing_in format directory.old) commit.now × IsSound format (with_commit commit.now (standing_in format directory.old)) × (standing_in format directory.new ≡ with_commit commit.now (standing_in format directory.old))) }
    ensures unsound { result ≡ Err CheckFault.Unsound → Continues (standing_in format directory.old) commit.now → IsSound format (with_commit commit.now (standing_in format directory.old)) → ⊥ }
    ensures err { OnErr result (directory.new ≡ directory.old) }
{
    directory.know();
    let leaves = leaves_in(alloc, commit.fresh.as_slice())?;
    let next = next_of(
        rt,
        alloc,
        directory,
        &leaves,
        commit.stale.as_slice(),
        workers,
    )?;
    next.snapshot().know();
    let same = is_same(alloc, commit, &next, format)?;
    if !same {
        return Err(CheckFault::Unsound);
    }
    let (landing, snapshot) = next.into_parts();
    directory.apply_landing(&landing, snapshot)?;
    Ok(())
}

/// What the landing of the changes that are read off bytes would write. `Unsound` only if the bytes begin with no landing's, or
/// no such landing may be the next one.
fn next_spelled<H: Threads + Sync>(
    rt: &H,
    alloc: Global,
    directory: &Directory,
    bytes: &[u8],
    format: Format,
    workers: Workers,
) -> Result<NextVersion, CheckFault>
    ensures landing { (c : Commit) (tail : List ℕ) → IsCommit format c → bytes.now ≡ commit_bytes format c ++ tail → IfOk result (IsLandingUpdate directory.now (read_map directory.now c)) }
    ensures own { IfOk result (λ u. IsLandingUpdate directory.now u.snapshot.map u) }
    ensures room { IfOk result (λ u. len u.snapshot.map ≤ 2 ^ 63) }
    ensures unsound { result ≡ Err CheckFault.Unsound → (c : Commit) (tail : List ℕ) → IsCommit format c → bytes.now ≡ commit_bytes format c ++ tail → MayBeNext directory.now (fresh_leaves c) c.stale → ⊥ }
{
    match scan_landing(alloc, bytes, format) {
        Ok(read) => next_of(rt, alloc, directory, &read.leaves, &read.stale, workers),
        Err(CodecFault::Memory) => Err(CheckFault::Memory),
        Err(_) => Err(CheckFault::Unsound),
    }
}

/// Takes the landing at the front of bytes in a file of this format, if it continues from the head and leaves a sound
/// standing: the changes that are read off the bytes are landed on the directory, and the bytes of what that writes are
/// compared with them. Returns the bytes after the landing. If it is refused, the directory is unchanged.
pub(crate) fn check_spelled<'a, H: Threads + Sync>(
    rt: &H,
    alloc: Global,
    directory: &mut Directory,
    bytes: &'a [u8],
    format: Format,
    workers: Workers,
) -> Result<&'a [u8], CheckFault>
    ensures taken { IfOk result (λ rest. (c : Commit) × IsCommit format c × (bytes.now ≡ commit_bytes format c ++ rest.now) × Continues (standing_in format directory.old) c × IsSound format (with_commit c (standing_in format directory.old)) × (standing_in format directory.new ≡ with_commit c (standing_in format directory.old))) }
    ensures unsound { result ≡ Err CheckFault.Unsound → (c : Commit) (tail : List ℕ) → IsCommit format c → bytes.now ≡ commit_bytes format c ++ tail → Continues (standing_in format directory.old) c → IsSound format (with_commit c (standing_in format directory.old)) → ⊥ }
    ensures err { OnErr result (directory.new ≡ directory.old) }
{
    directory.know();
    landings_are_spelled();
    written_in_both();
    kept_is_spelled();
    let next = next_spelled(rt, alloc, directory, bytes, format, workers)?;
    next.snapshot().know();
    // Ensures that the counts have 64 bits.
    let _ = (next.landing().fresh.len(), next.landing().stale.len());
    let Some(rest) = next.landing().strip_from(alloc, bytes, format)? else {
        return Err(CheckFault::Unsound);
    };
    let (landing, snapshot) = next.into_parts();
    directory.apply_landing(&landing, snapshot)?;
    Ok(rest)
}
