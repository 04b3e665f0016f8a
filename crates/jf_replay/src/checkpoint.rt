// A checkpoint that was read is built anew: its floor from the leaves and versions that it lists, and each later version
// as a landing.
ghost use Rattle.std.specs.Prelude.{◌≡◌, ◌<◌, ◌^◌, IfOk, OnOk, Err, true};
ghost use Rattle.std.specs.List.{AllByRecursion, list_all};
ghost use Rattle.jf_path.specs.Names.{IsName};
ghost use Rattle.jf_codec.specs.Spelling.{IsNode};
ghost use Rattle.jf_standing.specs.FormatLaws.{standing_in};
ghost use Rattle.jf_standing.specs.Next.{IsReadStanding};
ghost use Rattle.jf_standing.specs.Sound.{IsSound};
ghost use Rattle.jf_replay.specs.Cuts.{has_numbers, standing_by, standing_lent};

use crate::check_fault::CheckFault;
use crate::commit::check;
use crate::floor::floor_directory;
use crate::landing::landing_in;
use crate::lent::CheckpointRef;
use crate::numbers::{have_numbers, know_count};
use crate::since::{names_by_since, take_names};
use jf_codec::Format;
use jf_dir::Directory;
use jf_join::Workers;
use std::alloc::Global;
use std::thread::Threads;

/// The directory of a checkpoint that was read, whose nodes are as a file of a format has them. `Unsound` exactly if they
/// aren't those of landings one after another.
pub(crate) fn load<H: Threads + Sync>(
    rt: &H,
    alloc: Global,
    checkpoint: CheckpointRef<'_>,
    format: Format,
    workers: Workers,
) -> Result<Directory, CheckFault>
    requires read { IsReadStanding (standing_lent checkpoint) }
    requires spelled { AllByRecursion (λ n. IsName n.0 × IsNode format n.1 × (n.2 < 2 ^ 64)) checkpoint.nodes.now }
    ensures loaded { IfOk result (λ d. IsSound format (standing_lent checkpoint.entry) × (standing_in format d ≡ standing_lent checkpoint.entry)) }
    ensures unsound { result ≡ Err CheckFault.Unsound → IsSound format (standing_lent checkpoint.entry) → ⊥ }
{
    if !have_numbers(checkpoint.floor, checkpoint.head, checkpoint.nodes) {
        return Err(CheckFault::Unsound);
    }
    let mut directory = floor_directory(alloc, checkpoint, format)?;
    land_later(rt, alloc, &mut directory, checkpoint, format, workers)?;
    directory.know();
    Ok(directory)
}

/// Lands each version above the floor.
fn land_later<H: Threads + Sync>(
    rt: &H,
    alloc: Global,
    directory: &mut Directory,
    checkpoint: CheckpointRef<'_>,
    format: Format,
    workers: Workers,
) -> Result<(), CheckFault>
    requires read { IsReadStanding (standing_lent checkpoint) }
    requires spelled { AllByRecursion (λ n. IsName n.0 × IsNode format n.1 × (n.2 < 2 ^ 64)) checkpoint.nodes.now }
    requires numbered { list_all (has_numbers checkpoint.floor checkpoint.head) checkpoint.nodes.now ≡ true }
    requires begun { standing_in format directory.old ≡ standing_by checkpoint.floor (standing_lent checkpoint) }
    ensures landed { OnOk result (standing_in format directory.new ≡ standing_lent checkpoint.entry) }
    ensures unsound { result ≡ Err CheckFault.Unsound → IsSound format (standing_lent checkpoint.entry) → ⊥ }
{
    let CheckpointRef {
        base,
        floor,
        head,
        roots,
        nodes,
    } = checkpoint;
    know_count(nodes);
    let mut by_since = names_by_since(alloc, nodes)?;
    for step in 0..head - floor {
        let version = floor + 1 + step;
        let root = &roots[(version - base) as usize];
        let stale = take_names(alloc, &mut by_since, version);
        let commit = landing_in(alloc, nodes, version, root, stale)?;
        check(rt, alloc, directory, &commit, format, workers)?;
    }
    Ok(())
}
