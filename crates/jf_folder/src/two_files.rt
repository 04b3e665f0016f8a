// The two files of a folder: found or made, locked, and fit to be the sides of a store.
ghost use Rattle.std.specs.Prelude.{◌≡◌, None, IfOk, IfSome};
ghost use Rattle.jf_folder.specs.Begun.{is_beginning, store_refusal};
ghost use Rattle.jf_folder.specs.File.{IsUnwritten, AreFit};

use crate::cause::FaultCause;
use crate::file::FileRefused;
use crate::found::{are_apart, locked_file, make, open_there};
use crate::seen::{Seen, store_refusal};
use crate::side_file::SideFile;
use std::fs::File;
use std::rt::Files;

/// Both files, locked, and what was seen of each before one was made.
#[derive(Drop)]
pub(crate) struct TwoFiles {
    pub a: SideFile,
    pub b: SideFile,
    pub seen_a: Seen,
    pub seen_b: Seen,
}

impl TwoFiles {
    /// Finds both files, locks those that are there, and makes those that are missing. Nothing is made, and no byte
    /// written, unless a store may be opened over what is seen.
    pub(crate) fn open<H: Files<File = File>>(
        rt: &H,
        a_path: &str,
        b_path: &str,
    ) -> Result<TwoFiles, FileRefused>
        ensures { IfOk result AreFit }
    {
        let (a, b) = (open_there(rt, a_path)?, open_there(rt, b_path)?);
        if !are_apart(&a, &b)? {
            return Err(FileRefused::DiskFailed(FaultCause::NotAStore));
        }
        let a = Found::found_file(a)?;
        let b = Found::found_file(b)?;
        if let Some(cause) = store_refusal(a.seen, b.seen) {
            return Err(FileRefused::DiskFailed(cause));
        }
        let (seen_a, seen_b) = (a.seen, b.seen);
        Ok(TwoFiles {
            a: a.side_or_made(rt, a_path)?,
            b: b.side_or_made(rt, b_path)?,
            seen_a,
            seen_b,
        })
    }

    /// Whether the files, or their names, may not have reached the device yet: side A holds no byte, or one was missing.
    pub(crate) fn are_beginning(&self) -> bool
        ensures { result ≡ is_beginning self.now.seen_a self.now.seen_b }
    {
        !self.seen_a.has_more(0) || self.seen_b.is_missing()
    }
}

// A file, if there is one, and what is seen of it.
#[derive(Drop)]
struct Found {
    side: Option<SideFile>,
    seen: Seen,
}

impl Found {
    // Locks the file, if there is one, and looks at it.
    fn found_file(file: Option<File>) -> Result<Found, FileRefused>
        ensures { IfOk result (λ f. IfSome f.side IsUnwritten) }
    {
        match file {
            None => Ok(Found {
                side: None,
                seen: Seen::Missing,
            }),
            Some(file) => {
                let mut side = SideFile::over(locked_file(file)?);
                let seen = side.length_and_first_byte()?;
                Ok(Found {
                    side: Some(side),
                    seen,
                })
            }
        }
    }

    // The file, made now if it was missing.
    fn side_or_made<H: Files<File = File>>(
        self,
        rt: &H,
        path: &str,
    ) -> Result<SideFile, FileRefused>
        requires { IfSome self.side IsUnwritten }
        ensures { IfOk result IsUnwritten }
    {
        match self.side {
            Some(side) => Ok(side),
            None => Ok(SideFile::over(make(rt, path)?)),
        }
    }
}
