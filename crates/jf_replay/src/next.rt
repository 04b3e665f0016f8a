// The next record of a journal is taken, or its offset is returned: a floor, a landing or a group of landings. Landings are
// taken as their bytes.
ghost use Rattle.std.specs.Prelude.{◌≡◌, ℕ, Some, Err, OnOk};
ghost use Rattle.jf_frame.specs.Framed.{framed_value};
ghost use Rattle.jf_codec.specs.declared.format.Format.{Format};
ghost use Rattle.jf_payload.specs.Reading.{spelled_record};
ghost use Rattle.jf_payload.specs.declared.records.Record.{Record};
ghost use Rattle.jf_standing.specs.Standing.{Standing};
ghost use Rattle.jf_standing.specs.Taking.{TakesFloor, TakesRecord};
ghost use Rattle.jf_standing.specs.Leading.{ItemFollows};
ghost use Rattle.jf_standing.specs.FormatLaws.{standing_in};
ghost use Rattle.jf_files.specs.Files.{item};

use crate::check_fault::CheckFault;
use crate::fault::{ReplayFault, refused_at};
use crate::taking::{take_group, take_landings};
use jf_codec::Format;
use jf_dir::Directory;
use jf_frame::FramedRef;
use jf_join::Workers;
use jf_payload::{COMMIT, GROUP, Record, RecordFault, decode, spelled_is_spelling};
use jf_standing::{floors_prune, formats_are_sound, formats_follow};
use std::alloc::Global;
use std::thread::Threads;

/// Takes a later floor, from the present one to the head.
fn take_floor(directory: &mut Directory, floor: u64) -> Result<(), CheckFault>
    ensures taken { (fmt : Format) → OnOk result (TakesFloor fmt (standing_in fmt directory.old) floor (standing_in fmt directory.new)) }
    ensures unsound { (fmt : Format) (s : Standing) → result ≡ Err CheckFault.Unsound → TakesFloor fmt (standing_in fmt directory.old) floor s → ⊥ }
{
    floors_prune();
    formats_are_sound();
    formats_follow();
    directory.know();
    if floor < directory.floor() || floor > directory.head() {
        return Err(CheckFault::Unsound);
    }
    directory.prune(floor);
    Ok(())
}

/// Takes the record that a payload of a kind spells. Refused with `Unsound` if it spells no record that the directory takes;
/// after a refusal the directory may have taken some landings.
fn take_payload<H: Threads + Sync>(
    rt: &H,
    alloc: Global,
    directory: &mut Directory,
    kind: u8,
    payload: &[u8],
    format: Format,
    workers: Workers,
) -> Result<(), CheckFault>
    ensures taken { OnOk result ((r : Record) × (spelled_record format kind payload.now ≡ Some r) × TakesRecord format (standing_in format directory.old) r (standing_in format directory.new)) }
    ensures unsound { result ≡ Err CheckFault.Unsound → (r : Record) (s : Standing) → spelled_record format kind payload.now ≡ Some r → TakesRecord format (standing_in format directory.old) r s → ⊥ }
{
    spelled_is_spelling();
    if kind == COMMIT {
        return take_landings(rt, alloc, directory, 1, payload, format, workers);
    }
    if kind == GROUP {
        return take_group(rt, alloc, directory, payload, format, workers);
    }
    match decode(alloc, kind, payload, format) {
        Ok(Record::Floor(floor)) => take_floor(directory, floor),
        Ok(Record::NodeCommit(_) | Record::Group(_) | Record::Checkpoint { .. })
        | Err(RecordFault::Bad) => Err(CheckFault::Unsound),
        Err(RecordFault::Memory) => Err(CheckFault::Memory),
    }
}

/// Takes the next record. Refused with `Unsound`, and the record's offset, if its payload spells no record that the
/// directory takes; after a refusal the directory may have taken some landings.
pub(crate) fn take_next<H: Threads + Sync>(
    rt: &H,
    alloc: Global,
    directory: &mut Directory,
    framed: FramedRef<'_>,
    format: Format,
    workers: Workers,
) -> Result<(), ReplayFault>
    ensures taken { OnOk result (ItemFollows format (standing_in format directory.old) (item format (framed_value framed.entry)) (standing_in format directory.new)) }
    ensures unsound { (at : ℕ) → result ≡ Err (ReplayFault.Unsound at) → (at ≡ framed.entry.offset) × ((s : Standing) → ItemFollows format (standing_in format directory.old) (item format (framed_value framed.entry)) s → ⊥) }
{
    match take_payload(
        rt,
        alloc,
        directory,
        framed.kind,
        framed.payload,
        format,
        workers,
    ) {
        Ok(()) => Ok(()),
        Err(fault) => Err(refused_at(framed.offset, fault)),
    }
}
