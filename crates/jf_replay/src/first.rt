// The first record: a checkpoint, whose kind is that of the file's format.
ghost use Rattle.std.specs.Prelude.{◌≡◌, ℕ, List, true, Err, IfOk};
ghost use Rattle.jf_codec.specs.declared.format.Format.{Format};
ghost use Rattle.jf_frame.specs.Framed.{framed_value};
ghost use Rattle.jf_frame.specs.Framing.{number_of};
ghost use Rattle.jf_pair.specs.Files.{is_checkpoint};
ghost use Rattle.jf_payload.specs.Spelling.{checkpoint_kind, IsRecord, IsSpelling};
ghost use Rattle.jf_standing.specs.Standing.{Standing};
ghost use Rattle.jf_standing.specs.Begin.{IsReadFirst};
ghost use Rattle.jf_standing.specs.Taking.{GivesStanding};
ghost use Rattle.jf_standing.specs.Leading.{ItemBegins};
ghost use Rattle.jf_standing.specs.FormatLaws.{standing_in};
ghost use Rattle.jf_files.specs.Files.{item};

use crate::check_fault::CheckFault;
use crate::checkpoint::load;
use crate::fault::{ReplayFault, refused_at, undecoded_at};
use crate::lent::CheckpointRef;
use jf_codec::Format;
use jf_dir::Directory;
use jf_files::checkpoints_are_numbered;
use jf_frame::FramedRef;
use jf_join::Workers;
use jf_payload::{Record, decode, spelled_is_spelling};
use jf_standing::spelled_is_read;
use std::alloc::Global;
use std::thread::Threads;

/// What the records of a journal lead to: a directory, the format of their file, and the generation that their
/// checkpoint has.
#[derive(Drop)]
pub struct Replayed {
    pub directory: Directory,
    pub format: Format,
    pub generation: u64,
}

/// What a first record gives. Refused with `Unsound`, and the record's offset, if it isn't a sound checkpoint.
pub(crate) fn begin_with<H: Threads + Sync>(
    rt: &H,
    alloc: Global,
    framed: FramedRef<'_>,
    workers: Workers,
) -> Result<Replayed, ReplayFault>
    requires checkpoint { is_checkpoint framed.kind ≡ true }
    ensures kind { IfOk result (λ r. framed.entry.kind ≡ checkpoint_kind r.format) }
    ensures begun { IfOk result (λ r. ItemBegins r.format (item r.format (framed_value framed.entry)) (standing_in r.format r.directory)) }
    ensures generation { IfOk result (λ r. r.generation ≡ number_of framed.entry.payload.now) }
    ensures unsound { (at : ℕ) → result ≡ Err (ReplayFault.Unsound at) → (at ≡ framed.entry.offset) × ((fmt : Format) × (framed.entry.kind ≡ checkpoint_kind fmt) × ((s : Standing) → ItemBegins fmt (item fmt (framed_value framed.entry)) s → ⊥)) }
{
    spelled_is_spelling();
    spelled_is_read();
    let format = format_of(framed.kind);
    match decode(alloc, framed.kind, framed.payload, format) {
        Ok(found) => match first_replayed(rt, alloc, found, format, workers) {
            Ok(replayed) => Ok(replayed),
            Err(fault) => Err(refused_at(framed.offset, fault)),
        },
        Err(fault) => Err(undecoded_at(framed.offset, fault)),
    }
}

/// The format of a file whose first record has this kind.
fn format_of(kind: u8) -> Format
    requires { is_checkpoint kind ≡ true }
    ensures { kind ≡ checkpoint_kind result }
{
    if kind == 4 { Format::One } else { Format::Two }
}

/// What a record gives as the first one. Refused with `Unsound` if it isn't a sound checkpoint.
fn first_replayed<H: Threads + Sync>(
    rt: &H,
    alloc: Global,
    found: Record,
    format: Format,
    workers: Workers,
) -> Result<Replayed, CheckFault>
    requires sound { IsRecord format found }
    requires read { IsReadFirst found }
    ensures format { IfOk result (λ r. r.format ≡ format) }
    ensures given { IfOk result (λ r. GivesStanding format found (standing_in format r.directory)) }
    ensures generation { (kind : ℕ) (payload : List ℕ) → IsSpelling format found kind payload → IfOk result (λ r. r.generation ≡ number_of payload) }
    ensures unsound { result ≡ Err CheckFault.Unsound → (s : Standing) → GivesStanding format found s → ⊥ }
{
    checkpoints_are_numbered();
    match found {
        Record::Checkpoint {
            generation,
            base,
            floor,
            head,
            roots,
            nodes,
        } => {
            let checkpoint = CheckpointRef {
                base,
                floor,
                head,
                roots: roots.as_slice(),
                nodes: nodes.as_slice(),
            };
            let directory = load(rt, alloc, checkpoint, format, workers)?;
            Ok(Replayed {
                directory,
                format,
                generation,
            })
        }
        Record::Floor(_) | Record::NodeCommit(_) | Record::Group(_) => Err(CheckFault::Unsound),
    }
}
