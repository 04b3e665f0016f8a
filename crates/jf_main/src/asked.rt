// What a command line asks for, before any mode is looked at.
ghost use Rattle.std.specs.Prelude.{◌≡◌};
ghost use Rattle.jf_main.specs.Asking.{asked_by};

use crate::command_line::CommandLine;
use crate::help::OwnText;

/// What a command line asks for (docs/FORMATS.md, "Calling the program").
#[derive(Drop)]
pub enum Asked {
    /// A text of the program's own.
    Text(OwnText),
    /// Words over a folder.
    Line(CommandLine),
}

impl Asked {
    /// What a command line asks for: help if its one word is `--help`, the version if it is `--version`.
    pub fn by(line: CommandLine) -> Asked
        ensures { result ≡ asked_by line }
    {
        if !line.words.is_empty() {
            return Asked::Line(line);
        }
        match line.folder.as_str() {
            "--help" => Asked::Text(OwnText::Help),
            "--version" => Asked::Text(OwnText::Version),
            _ => Asked::Line(line),
        }
    }
}
