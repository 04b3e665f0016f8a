// The top call of the program: the words of a command line say what is done with source, sink and disk.
ghost use Rattle.std.specs.Prelude.{◌≡◌, ℕ, List, IfNone, IsTrue, IsFalse};
ghost use Rattle.jf_words.specs.Modes.{mode_asked_for};
ghost use Rattle.jf_words.specs.Shapes.{ByImport, IsIdleWithoutStore, NoInput, ToItsEnd, asked_shape};
ghost use Rattle.jf_run.specs.Calls.{disk_of, program_call, shown_devices};
ghost use Rattle.jf_run.specs.Promises.{KeepsPromises};
ghost use Rattle.jf_run.specs.Statuses.{is_input_fault};

use crate::check_over::check_over;
use crate::judge_name::judge_name;
use crate::judging::judge_input;
use crate::over_store::over_store;
use crate::status::{Ended, Status};
use jf_disk::Disk;
use jf_files::files_stand_for_sound;
use jf_io::{Sink, Source};
use jf_join::Gate;
use jf_receive::RestoreFault;
use jf_words::{Mode, mode_of};
use std::alloc::Global;
use std::sync::Wait;
use std::thread::Threads;

/// Runs the words of a command line over a source, a sink and a disk (docs/FORMATS.md, "Calling the program").
///
/// - `run` opens the store on the disk, and answers the script of the source into the sink, as the only session of the
///   store. `--workers N`, 1 to 64, says how many threads may work at once on the pieces of a landing, also of one that
///   the opening reads; unless N is 1, the values of a large batch are hashed, many lines at hand that read the head are
///   answered, and many that are puts are read, by several threads too. The gate is notified of each piece of a landing that the script asks for, before
///   the piece begins. Neither changes the output.
/// - `resume VERSION ROOT` opens the store, and goes on as `run` if the recorded root of the version is this one. Otherwise it
///   ends with `Elsewhere`, and has done nothing. It begins files without a record only if a new store has that root, as version
///   0 with the root of the empty map; with another one no store is opened there.
/// - `serve` opens the store, reads the source to its end, and runs the scripts of its sessions, 1 to 16, side by side over
///   the store (docs/FORMATS.md, "Several sessions"). `--workers N` is for landings as in `run`. The gate is notified of
///   each session before it begins, too. Once all have ended, it writes the output of each session, and then the entries.
/// - `lead` opens the store, and runs the script of the source over it as `run` does. It writes no replies, but the landing
///   block of each version that it lands, as soon as the landing stands (docs/FORMATS.md, "Landing blocks").
/// - `follow` opens the store, and lands the landing blocks of the source, each at its last line, as long as each yields the
///   root that is announced; then it writes the head of the store and its root.
/// - `generate SEED BATCHES SIZE` opens the store, and runs the script of that seed over it in the same way. It reads no
///   input, and writes how many replies were refusals and the last two replies.
/// - `restore VERSION ROOT` opens a new store, and makes it hold one version, whose entries the source gives as chunk
///   blocks. Each block is judged when its last line has come, and at most 4,096 bytes are taken at a time. The store is
///   changed only once all was judged; refused input leaves it as it was.
/// - `history VERSION` opens the store, and writes the total of the recorded roots, with the proofs that the version's root
///   is among them and that they begin with those up to it. It reads no input.
/// - `many VERSION` opens the store, reads a name on each line of the source, at most 10,000, and writes what the version
///   says of them all, with one proof of it, as a block that `verify` judges. Nothing is written before the source was read
///   to its end.
/// - `verify` judges the proof blocks of the source, and writes the verdicts into the sink. No call is made on the
///   disk.
/// - `judge ROOT NAME` reads the reply to one `prove` from the source, to its end, and writes what it shows of the name under the
///   root, as one line: `value =VALUE`, `none` or `refused N`. No call is made on the disk.
/// - `check` tells what the disk's two files show, each by itself and both together, with no store opened over them. It reads no
///   input, and makes at most four calls on the disk, which read.
/// - For other words the call returns `Usage`, or `Memory` if memory runs out. No device is touched.
///
/// A mode that writes nothing before the end of its input, as `serve`, `follow`, `many` and `judge`, makes no call on the
/// sink if it ends with `ReadFault`, `InputFull`, `Refused` or `Unfollowed` (clause `unwritten`), and none on source and sink
/// if it ends with `Outside` (clause `outside`). After `Elsewhere` no call was made on source or sink (clause `elsewhere`).
///
/// The disk is handed back in every case. The clause `kept` is one record with all promises of a call
/// (docs/PROMISES.md, "The top call"):
///
/// - If a script was run over an opened store (`IsRunCall`, `IsGeneratedCall`), replies and entries are those of the
///   lines done. After a crash at any moment the files represent the versions after a first part of the entries that has
///   every landing acknowledged by then; if the disk failed, they may instead represent those after all entries and the
///   one that the first line without a reply asked for. On a disk that wasn't calm before the call, this holds from the
///   opening on. If the disk didn't fail, the files represent the versions after all entries at the end.
/// - If a store with an announced root was to be resumed (`IsResumedCall`), the call is such a run over a store that has that
///   root; or there are no entries, and the files are unchanged: they held a record (`IsElsewhere`), or they held none and no
///   store was opened (`IsAbsentCall`). `Elsewhere` comes exactly then.
/// - In the mode `lead` (`IsLedCall`) the entries are those of the lines done, with the same promises of a crash, and the text
///   has the blocks of the landings made.
/// - If landing blocks were to be followed (`IsFollowedCall`), the entries are the landings of the blocks up to the first that
///   was refused or failed, with the same promises of a crash; a refusal is the first one of the whole input.
/// - If several sessions were to be served (`IsServedCall`), one legal history explains what all of them were answered, and
///   the entries are that history. The same holds of a crash, with the attempt of one session. If no session began, there
///   are no entries and nothing was written; `InputFull` and `ReadFault` come only then.
/// - If a version was to be restored (`IsRestoredCall`), there are no entries, and after a crash at any moment the files
///   represent what they represented before or the restored version alone: after `Done` and `WriteFault` the restored
///   version, and after every other end but `DiskFault` what they represented before.
/// - If the total of the recorded roots was to be written (`IsHistoryCall`), there are no entries, the disk shows what the
///   opening left, and the text is that of the versions and the number; `Outside` comes exactly if the version's
///   root isn't recorded.
/// - If the names of an input were to be looked up (`IsManyCall`), there are no entries, the disk shows what the opening
///   left, and the text is that of the versions, the number and the input. `Outside` comes exactly if the version
///   isn't from the floor to the head; after it, a line that is no name or is the 10,001st is refused by its number.
/// - If the files were to be reported (`IsCheckedCall`), the text is that of the bytes that a read of the disk gives, and
///   the status that of what they represent: `Done`, or `Damaged` with the first place of damage. Nothing is changed.
/// - If no store was opened (`IsClosedCall`), there are no entries and the files are unchanged. One exception: a call
///   that ends with `DiskFault` may have initialised files without a record, which still represent a new store. `resume`
///   with a root that no new store has does not initialise them either way.
/// - In the mode `verify` (`IsJudgedCall`), the verdicts were written, as far as the status says; in the mode `judge`
///   (`IsJudgedNameCall`), what the block shows of the name.
pub fn run_words<S: Source, K: Sink, D: Disk, H: Threads + Wait + Sync, G: Gate>(
    rt: &H,
    alloc: Global,
    words: &[String],
    source: &mut S,
    sink: &mut K,
    disk: D,
    gate: &G,
) -> Ended<D>
    // Words for which no call is made on the disk leave it as it is.
    ensures untouched { IsFalse (asked_shape (mode_asked_for words.now)).calls → result.disk ≡ disk }
    // Words that read no input leave the source as it is.
    ensures unread { (asked_shape (mode_asked_for words.now)).reading ≡ NoInput → source.new ≡ source.old }
    // If the mode needs a store and none was opened, nothing is read or written.
    ensures silent { IsIdleWithoutStore (mode_asked_for words.now) → IfNone result.start ((source.new ≡ source.old) × (sink.new ≡ sink.old)) }
    // A mode that reads its input to the end writes nothing if the input is at fault.
    ensures unwritten { (asked_shape (mode_asked_for words.now)).reading ≡ ToItsEnd → IsTrue (is_input_fault result.status) → sink.new ≡ sink.old }
    // If the store to restore into has versions, nothing is read or written.
    ensures occupied { (asked_shape (mode_asked_for words.now)).changes ≡ ByImport → (head : ℕ) → result.status ≡ Status.Refused (RestoreFault.NotEmpty head) → (source.new ≡ source.old) × (sink.new ≡ sink.old) }
    // A version that isn't there is reported before anything is read or written.
    ensures outside { (asked_shape (mode_asked_for words.now)).reading ≡ ToItsEnd → (least head : ℕ) → result.status ≡ Status.Outside least head → (source.new ≡ source.old) × (sink.new ≡ sink.old) }
    // If the store isn't the one whose root was given, nothing is read or written.
    ensures elsewhere { (head : ℕ) (root : List ℕ) → result.status ≡ Status.Elsewhere head root → (source.new ≡ source.old) × (sink.new ≡ sink.old) }
    // The disk, the output and the status are what the mode of the words promises.
    ensures kept { KeepsPromises (program_call (mode_asked_for words.now) (D.missing disk) (shown_devices S.Source K.Sink source.old sink.old (disk_of D.Disk disk)) (shown_devices S.Source K.Sink source.new sink.new (disk_of D.Disk result.disk)) result.status result.entries result.start) }
{
    files_stand_for_sound();
    let mode = match mode_of(alloc, words) {
        Ok(Some(mode)) => mode,
        Ok(None) => return Ended::without_store(alloc, Status::Usage, disk),
        Err(_) => return Ended::without_store(alloc, Status::Memory, disk),
    };
    match mode {
        Mode::Verify => {
            let status = judge_input(alloc, source, sink);
            Ended::without_store(alloc, status, disk)
        }
        Mode::Judge { root, name } => {
            let status = judge_name(alloc, &root, name.as_slice(), source, sink);
            Ended::without_store(alloc, status, disk)
        }
        Mode::Check => check_over(rt, alloc, sink, disk),
        _ => over_store(rt, alloc, mode, source, sink, disk, gate),
    }
}
