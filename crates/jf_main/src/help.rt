// What the program says of itself.
ghost use Rattle.std.specs.Prelude.{◌≡◌, ◌≤◌, ◌⊎◌, None, ◌++◌, option_map};
ghost use Rattle.jf_path.specs.Faults.{HasCause};
ghost use Rattle.jf_io.specs.Sink.{IsCutShort};
ghost use Rattle.jf_main.specs.Help.{help_text, more_usage_text, own_text, version_text};

use crate::ending::Ending;
use jf_io::{Sink, put_all};
use jf_run::status::Status;

/// The second line about faulty words: those that the first one lacks (docs/FORMATS.md, "Calling the program").
pub fn more_usage_text() -> &'static str
    ensures { result.now ≡ more_usage_text }
{
    "also: jellystore FOLDER resume VERSION ROOT|lead|follow|trim|history VERSION|many VERSION|judge ROOT NAME|check; jellystore --help|--version"
}

/// What `--help` writes: how the program is called, what each mode does, an example, and where to read on.
#[tactic(auto, unfolding(crate::specs::Help::help_text))]
fn help_text() -> &'static str
    ensures { result.now ≡ help_text }
{
    "\
usage: jellystore FOLDER run|serve|restore VERSION ROOT|verify|generate SEED BATCHES SIZE [--workers N]
also: jellystore FOLDER resume VERSION ROOT|lead|follow|trim|history VERSION|many VERSION|judge ROOT NAME|check; jellystore --help|--version
FOLDER has the store's two files; `-` is a store in memory, which is gone at the end. After it:
  run                         does the script on standard input, and writes a reply for each line
  resume VERSION ROOT         as run, if ROOT is the root of VERSION, and else nothing
  serve                       does the scripts of several sessions side by side
  lead                        does a script, and writes each version that it lands as a block
  follow                      lands the blocks that a leader wrote
  generate SEED BATCHES SIZE  does a script drawn from SEED, which changes the store
  restore VERSION ROOT        makes a new store hold VERSION, from chunks
  trim                        cuts the file that isn't live
  history VERSION             writes the total of all roots, with proofs for VERSION's
  many VERSION                writes what VERSION says of many names, with one proof
  verify                      judges proofs, without a store
  judge ROOT NAME             says what one proof shows of NAME under ROOT, without a store
  check                       says what the files hold, and changes nothing
N, from 1 to 64, is how many threads may work at once; 4 without the option.
example: printf 'put 61 =31\\ncommit\\nget head 61\\n' | jellystore - run
docs/FORMATS.md has all words, replies and statuses, docs/OPERATING.md what operators do.
"
}

/// What `--version` writes: the program's version, and the formats of files that it reads.
fn version_text() -> &'static str
    ensures { result.now ≡ version_text }
{
    "jellystore 1.0.0 (files: formats 1 and 2)\n"
}

/// A text that the program writes of itself.
#[derive(Clone, Copy, Debug, PartialEq, Eq, Drop)]
pub enum OwnText {
    /// How the program is called.
    Help,
    /// Which version of the program this is.
    Version,
}

impl OwnText {
    /// Its words, with the line feeds.
    pub fn words(self) -> &'static str
        ensures { result.now ≡ own_text self }
    {
        match self {
            OwnText::Help => help_text(),
            OwnText::Version => version_text(),
        }
    }
}

/// Writes a text of the program's own into a sink, and returns how that ended: `WriteFault` if the sink failed and took less than all.
pub fn write_text<K: Sink>(text: OwnText, sink: &mut K) -> Ending
    ensures ends { (result.status ≡ Status.Done) ⊎ (result.status ≡ Status.WriteFault) }
    ensures written { result.status ≡ Status.Done → K.text sink.new ≡ option_map (λ t. t ++ own_text text) (K.text sink.old) }
    ensures cut_short { result.status ≡ Status.WriteFault → IsCutShort (K.text sink.old) (K.text sink.new) (own_text text) }
    ensures cause { result.status ≡ Status.WriteFault → HasCause (K.faults sink.old) (K.faults sink.new) }
    ensures counts { K.faults sink.old ≤ K.faults sink.new }
    ensures bare { (result.cause ≡ None) × (result.note ≡ None) }
{
    match put_all(sink, text.words().as_bytes()) {
        Ok(()) => Ending::of_status(Status::Done),
        Err(_) => Ending::of_status(Status::WriteFault),
    }
}
