// Landings are taken as their bytes, one after another.
ghost use Rattle.std.specs.Prelude.{◌≡◌, List, flat_map, length, Err, OnOk};
ghost use Rattle.std.specs.List.{AllByRecursion};
ghost use Rattle.jf_payload.specs.Spelling.{IsCommit, IsGroup, commit_bytes, list_bytes};
ghost use Rattle.jf_payload.specs.declared.records.Commit.{Commit};
ghost use Rattle.jf_standing.specs.Standing.{Standing};
ghost use Rattle.jf_standing.specs.Taking.{TakesCommits};
ghost use Rattle.jf_standing.specs.FormatLaws.{standing_in};

use crate::check_fault::CheckFault;
use crate::commit::check_spelled;
use jf_codec::{Format, u64_at};
use jf_dir::Directory;
use jf_join::Workers;
use jf_path::MAX_FORKS;
use std::alloc::Global;
use std::thread::Threads;

/// Takes `count` landings, one after another, whose bytes these are. Refused with `Unsound` if they are no such landings; after
/// a refusal the directory may have taken some of them.
pub(crate) fn take_landings<H: Threads + Sync>(
    rt: &H,
    alloc: Global,
    directory: &mut Directory,
    count: u64,
    bytes: &[u8],
    format: Format,
    workers: Workers,
) -> Result<(), CheckFault>
    ensures taken { OnOk result ((cs : List Commit) × (length cs ≡ count) × AllByRecursion (IsCommit format) cs × (bytes.now ≡ flat_map (commit_bytes format) cs) × TakesCommits format (standing_in format directory.old) cs (standing_in format directory.new)) }
    ensures unsound { result ≡ Err CheckFault.Unsound → (cs : List Commit) (s : Standing) → length cs ≡ count → AllByRecursion (IsCommit format) cs → bytes.now ≡ flat_map (commit_bytes format) cs → TakesCommits format (standing_in format directory.old) cs s → ⊥ }
{
    let mut rest = bytes;
    for _ in 0..count {
        rest = check_spelled(rt, alloc, directory, rest, format, workers)?;
    }
    if !rest.is_empty() {
        return Err(CheckFault::Unsound);
    }
    Ok(())
}

/// Takes a group of landings, whose bytes these are: their number, and each of them. Refused with `Unsound` if they are no such
/// group; after a refusal the directory may have taken some of its landings.
pub(crate) fn take_group<H: Threads + Sync>(
    rt: &H,
    alloc: Global,
    directory: &mut Directory,
    bytes: &[u8],
    format: Format,
    workers: Workers,
) -> Result<(), CheckFault>
    ensures taken { OnOk result ((cs : List Commit) × IsGroup format cs × (bytes.now ≡ list_bytes (commit_bytes format) cs) × TakesCommits format (standing_in format directory.old) cs (standing_in format directory.new)) }
    ensures unsound { result ≡ Err CheckFault.Unsound → (cs : List Commit) (s : Standing) → IsGroup format cs → bytes.now ≡ list_bytes (commit_bytes format) cs → TakesCommits format (standing_in format directory.old) cs s → ⊥ }
{
    let Ok((count, landings)) = u64_at(bytes) else {
        return Err(CheckFault::Unsound);
    };
    if count < 2 || count > MAX_FORKS {
        return Err(CheckFault::Unsound);
    }
    take_landings(rt, alloc, directory, count, landings, format, workers)
}
