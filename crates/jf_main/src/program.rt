// The program over the devices of its process.
ghost use Rattle.std.specs.Prelude.{◌≡◌, ◌≤◌, Some};
ghost use Rattle.std.specs.Process.{exit_status};
ghost use Rattle.jf_words.specs.Modes.{mode_asked_for};
ghost use Rattle.jf_words.specs.declared.modes.Mode.TheVariants as mode;

use crate::asked::Asked;
use crate::checking::{check_over, seen_at};
use crate::command_line::CommandLine;
use crate::ending::Ending;
use crate::ending_text::EndingText;
use crate::help::write_text;
use crate::note::CallNote;
use crate::place::disk_at;
use jf_folder::AnyDisk;
use jf_io::{StdSink, StdSource};
use jf_join::FreeGate;
use jf_run::asks_check;
use jf_run::run_words::run_words;
use jf_run::status::{Ended, Status};
use std::fs::File;
use std::io::ErrorKind;
use std::mem::ManuallyDrop;
use std::process::ExitCode;
use std::rt::{Files, Runtime};
use std::sync::Wait;
use std::thread::Threads;
use std::{env, io};

/// Runs the program over the arguments, standard input and standard output of its process, writes the lines about its end
/// to standard error, and returns the exit status (docs/FORMATS.md, "Calling the program"). Lines that can't be
/// written don't change it.
pub fn run<R: Runtime + Files<File = File> + AllocGlobal + Threads + Wait + Sync>(
    rt: &R,
) -> ExitCode
    ensures { exit_status result ≤ 12 }
{
    let ending = run_process(rt);
    let _ = tell(rt, &ending);
    ending.exit_code()
}

// Runs the command line of the process.
fn run_process<R: Runtime + Files<File = File> + AllocGlobal + Threads + Wait + Sync>(
    rt: &R,
) -> Ending {
    match command_line(rt) {
        Ok(line) => run_asked(rt, Asked::by(line)),
        Err(ending) => ending,
    }
}

// The command line of the process. `Usage` if a word isn't UTF-8 or there is none.
fn command_line<R: Runtime + AllocGlobal>(rt: &R) -> Result<CommandLine, Ending> {
    match env::args(rt) {
        Ok(args) => match CommandLine::of(rt.alloc(), args) {
            Ok(line) => Ok(line),
            Err(why) => Err(Ending::without_line(why)),
        },
        Err(error) if error.kind() == ErrorKind::OutOfMemory => {
            Err(Ending::of_status(Status::Memory))
        }
        Err(_) => Err(Ending::of_status(Status::Usage)),
    }
}

// Writes the text that is asked for to standard output, or runs the words.
fn run_asked<R: Runtime + Files<File = File> + AllocGlobal + Threads + Wait + Sync>(
    rt: &R,
    asked: Asked,
) -> Ending {
    match asked {
        Asked::Text(text) => write_text(text, &mut StdSink::new(io::writer(rt))),
        Asked::Line(line) => run_line(rt, &line),
    }
}

// Runs the words of a command line over the disk that it names, or over what its files hold, if the words ask for a check.
fn run_line<R: Runtime + Files<File = File> + AllocGlobal + Threads + Wait + Sync>(
    rt: &R,
    line: &CommandLine,
) -> Ending {
    match asks_check(rt.alloc(), &line.words) {
        Ok(true) => check_line(rt, line),
        Ok(false) => open_line(rt, line),
        Err(_) => Ending::of_status(Status::Memory),
    }
}

// Opens the disk that the command line names, and runs its words over it.
fn open_line<R: Runtime + Files<File = File> + AllocGlobal + Threads + Wait + Sync>(
    rt: &R,
    line: &CommandLine,
) -> Ending {
    match disk_at(rt, rt.alloc(), line.folder.as_str()) {
        Ok(disk) => run_over(rt, &line.words, disk),
        Err(why) => Ending::of_refusal(why),
    }
}

// Reads the files that the command line names, and reports on them on standard output.
fn check_line<R: Runtime + Files<File = File> + AllocGlobal + Threads + Wait + Sync>(
    rt: &R,
    line: &CommandLine,
) -> Ending
    requires { mode_asked_for line.now.words.items ≡ Some mode.Check }
{
    match seen_at(rt, rt.alloc(), line.folder.as_str()) {
        Ok(seen) => {
            let mut source = StdSource::new(rt.reader());
            let mut sink = StdSink::new(io::writer(rt));
            check_over(rt, rt.alloc(), &line.words, &mut source, &mut sink, seen)
        }
        Err(why) => Ending::of_refusal(why),
    }
}

// Runs words over a disk, standard input and standard output.
fn run_over<R: Runtime + AllocGlobal + Threads + Wait + Sync>(
    rt: &R,
    words: &[String],
    disk: AnyDisk,
) -> Ending {
    let mut source = StdSource::new(rt.reader());
    let mut sink = StdSink::new(io::writer(rt));
    let Ended {
        status,
        disk,
        entries,
        start,
        memory,
    } = run_words(
        rt,
        rt.alloc(),
        words,
        &mut source,
        &mut sink,
        disk,
        &FreeGate,
    );
    // The process ends now, and the system takes all of its memory at once.
    let _ = ManuallyDrop::new((entries, memory));
    Ending::of_call(status, &disk, CallNote::after_call(words, start))
}

// Writes to standard error what there is to say of an end.
fn tell<R: Runtime>(rt: &R, ending: &Ending) -> io::Result<()> {
    eprint!(rt; "{}", EndingText::of(ending))
}
