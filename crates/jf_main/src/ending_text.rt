// All that standard error says of an end, line by line.
ghost use Rattle.std.specs.Prelude.{◌≡◌, Some, option_map};
ghost use Rattle.jf_folder.specs.Causes.{cause_text};
ghost use Rattle.jf_main.specs.EndingTexts.{cause_lines, ending_text, note_lines, status_lines};

use crate::ending::Ending;
use crate::help::more_usage_text;
use crate::note::CallNote;
use crate::status_line::StatusLine;
use jf_run::status::Status;
use std::fmt;

/// All that standard error says of an end (docs/FORMATS.md, "Calling the program"): the lines of the status, that of the
/// cause, and the note.
#[derive(Clone, Copy, Drop)]
pub struct EndingText {
    status: Status,
    cause: Option<&'static str>,
    note: Option<CallNote>,
}

impl EndingText {
    /// The lines about this end.
    pub fn of(ending: &Ending) -> EndingText
        ensures status { result.status ≡ ending.now.status }
        ensures reason { option_map (λ w. w.now) result.cause ≡ option_map cause_text ending.now.cause }
        ensures note { result.note ≡ ending.now.note }
    {
        let (status, note) = (ending.status, ending.note);
        match ending.cause {
            None => EndingText {
                status,
                cause: None,
                note,
            },
            Some(cause) => EndingText {
                status,
                cause: Some(cause.text()),
                note,
            },
        }
    }
}

impl fmt::Display for EndingText {
    ghost output = { λ t. Some (ending_text t.status (option_map (λ w. w.now) t.cause) t.note) };

    fn fmt<W: fmt::Write>(&self, f: &mut fmt::Formatter<W>) -> fmt::Result {
        let status = StatusLines(self.status);
        let cause = CauseLine(self.cause);
        let note = NoteLine(self.note);
        write!(f, "{status}{cause}{note}")
    }
}

// The lines of a status.
#[derive(Clone, Copy, Drop)]
struct StatusLines(Status);

impl fmt::Display for StatusLines {
    ghost output = { λ l. Some (status_lines l.0) };

    fn fmt<W: fmt::Write>(&self, f: &mut fmt::Formatter<W>) -> fmt::Result {
        match self.0 {
            Status::Done => Ok(()),
            Status::Usage => {
                let (line, more) = (StatusLine(Status::Usage), more_usage_text());
                write!(f, "{line}\n{more}\n")
            }
            status => {
                let line = StatusLine(status);
                write!(f, "{line}\n")
            }
        }
    }
}

// The line of a cause, by its words.
#[derive(Clone, Copy, Drop)]
struct CauseLine(Option<&'static str>);

impl fmt::Display for CauseLine {
    ghost output = { λ l. Some (cause_lines (option_map (λ w. w.now) l.0)) };

    fn fmt<W: fmt::Write>(&self, f: &mut fmt::Formatter<W>) -> fmt::Result {
        match self.0 {
            None => Ok(()),
            Some(words) => write!(f, "because: {words}\n"),
        }
    }
}

// The line of a note.
#[derive(Clone, Copy, Drop)]
struct NoteLine(Option<CallNote>);

impl fmt::Display for NoteLine {
    ghost output = { λ l. Some (note_lines l.0) };

    fn fmt<W: fmt::Write>(&self, f: &mut fmt::Formatter<W>) -> fmt::Result {
        match self.0 {
            None => Ok(()),
            Some(note) => write!(f, "{note}\n"),
        }
    }
}
