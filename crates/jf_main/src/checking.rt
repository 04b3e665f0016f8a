// The files that a check reports on: they are read, and no store is opened over them.
ghost use Rattle.std.specs.Prelude.{◌≡◌, ◌≤◌, ℕ, List, [], Option, Some, Err, IfOk, IfErr, codes, option_map};
ghost use Rattle.jf_path.specs.Faults.{HasCause};
ghost use Rattle.jf_words.specs.Modes.{mode_asked_for};
ghost use Rattle.jf_words.specs.declared.modes.Mode.TheVariants as mode;
ghost use Rattle.jf_main.specs.Checks.{IsCheckEnd, ShowsFiles};

use crate::ending::Ending;
use jf_folder::{AnyDisk, FaultCause, FileRefused, FolderBytes};
use jf_io::{Sink, Source};
use jf_join::FreeGate;
use jf_run::run_words::run_words;
use jf_run::status::Status;
use std::alloc::Global;
use std::fs::File;
use std::rt::Files;
use std::sync::Wait;
use std::thread::Threads;

// The calls on a disk that a check makes.
const CHECK_CALLS: u64 = 4;

/// What two files held when they were read, as a disk whose calls reach no file; and why no store would be opened over
/// them, if none would.
#[derive(Drop)]
pub struct SeenFiles {
    pub disk: AnyDisk,
    pub refusal: Option<FaultCause>,
}

impl SeenFiles {
    // What files of these bytes hold. Refused only if memory runs out.
    fn of(alloc: Global, files: FolderBytes) -> Result<SeenFiles, FileRefused>
        ensures shown { IfOk result (ShowsFiles (option_map (λ v. v.items) files.a) (option_map (λ v. v.items) files.b)) }
        ensures err { IfErr result (λ why. why ≡ FileRefused.Memory) }
    {
        let refusal = files.refusal();
        match AnyDisk::of_bytes(alloc, files, CHECK_CALLS) {
            Ok(disk) => Ok(SeenFiles { disk, refusal }),
            Err(_) => Err(FileRefused::Memory),
        }
    }
}

/// The files that a word names: `-` names two empty ones, and any other word those of a folder. No folder has the empty
/// name. No file is made or changed, and no lock is taken.
pub fn seen_at<R: Files<File = File>>(
    rt: &R,
    alloc: Global,
    folder: &str,
) -> Result<SeenFiles, FileRefused>
    // After `Ok` the disk shows two files, of which either may be missing, and the refusal is that of an opening over them.
    ensures seen { IfOk result (λ s. (a b : Option (List ℕ)) × ShowsFiles a b s) }
    // After `Ok` the word `-` has named two files without bytes.
    ensures empty { folder.now ≡ codes "-" → IfOk result (ShowsFiles (Some []) (Some [])) }
    // The word `-` is refused only if memory runs out.
    ensures unrefused { folder.now ≡ codes "-" → IfErr result (λ why. why ≡ FileRefused.Memory) }
    // The empty word is refused with `NoSuchFolder`.
    ensures unnamed { folder.now ≡ [] → result ≡ Err (FileRefused.DiskFailed FaultCause.NoSuchFolder) }
{
    if folder == "-" {
        let (a, b) = (Some(Vec::new(alloc)), Some(Vec::new(alloc)));
        return SeenFiles::of(alloc, FolderBytes { a, b });
    }
    match FolderBytes::read(rt, alloc, folder) {
        Ok(files) => SeenFiles::of(alloc, files),
        Err(why) => Err(why),
    }
}

/// Runs words that ask for a check over what two files held, and returns how the program ends: as an opening of these files
/// would, unless the sink failed or memory ran out. So `DiskFault`, with the cause, says that no store would be opened over
/// them, and `Damaged` tells the first place of damage; in both cases all lines were written.
pub fn check_over<H: Threads + Wait + Sync, S: Source, K: Sink>(
    rt: &H,
    alloc: Global,
    words: &[String],
    source: &mut S,
    sink: &mut K,
    seen: SeenFiles,
) -> Ending
    // The words ask for a check.
    requires asked { mode_asked_for words.now ≡ Some mode.Check }
    // What the files show was written, by their bytes, and the end is that of an opening of them.
    ensures checked { (a b : Option (List ℕ)) → ShowsFiles a b seen → IsCheckEnd a b (K.text sink.old) (K.text sink.new) result }
    // `WriteFault` comes only if the sink counted a fault.
    ensures cause { result.status ≡ Status.WriteFault → HasCause (K.faults sink.old) (K.faults sink.new) }
    // After `Memory` nothing was written, and the sink counted no fault.
    ensures unwritten { result.status ≡ Status.Memory → (K.text sink.new ≡ K.text sink.old) × (K.faults sink.new ≡ K.faults sink.old) }
    // Nothing is read.
    ensures unread { source.new ≡ source.old }
    // The sink's count of faults doesn't fall.
    ensures counts { K.faults sink.old ≤ K.faults sink.new }
{
    let SeenFiles { disk, refusal } = seen;
    let ended = run_words(rt, alloc, words, source, sink, disk, &FreeGate);
    Ending::of_check(ended.status, refusal)
}
