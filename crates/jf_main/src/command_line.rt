// The words of a command line.
ghost use Rattle.std.specs.Prelude.{◌≡◌, ◌⊎◌, ◌∷◌, ◌<◌, ◌↔◌, length, drop, IfOk, IfErr, Err};
ghost use Rattle.std.specs.Vec.Iter.{into_iter_items};

use jf_run::status::Status;
use std::alloc::Global;
use std::env::Args;

/// The words of a command line after the program's own name.
#[derive(Drop)]
pub struct CommandLine {
    /// Names the disk.
    pub folder: String,
    /// Say what is done over it.
    pub words: Vec<String>,
}

impl CommandLine {
    /// The command line of a process's arguments. Returns `Usage` if no folder is named, and `Memory` if memory runs out.
    pub fn of(alloc: Global, mut args: Args) -> Result<CommandLine, Status>
        ensures words { IfOk result (λ l. l.folder ∷ l.words.items ≡ drop 1 (into_iter_items args)) }
        ensures usage { result ≡ Err Status.Usage ↔ (length (into_iter_items args) < 2) }
        ensures refused { IfErr result (λ e. (e ≡ Status.Usage) ⊎ (e ≡ Status.Memory)) }
    {
        // The program's own name.
        if args.next().is_none() {
            return Err(Status::Usage);
        }
        let folder = match args.next() {
            Some(folder) => folder,
            None => return Err(Status::Usage),
        };
        match args.collect(alloc) {
            Ok(words) => Ok(CommandLine { folder, words }),
            Err(_) => Err(Status::Memory),
        }
    }
}
