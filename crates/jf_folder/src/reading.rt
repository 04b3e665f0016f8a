// The bytes of a folder's two files, read without a change to the folder.
ghost use Rattle.std.specs.Prelude.{◌≡◌, [], length, Err, IfOk, option_map};
ghost use Rattle.jf_folder.specs.Calls.{ReadsAlone};
ghost use Rattle.jf_folder.specs.Begun.{store_refusal};
ghost use Rattle.jf_folder.specs.Reading.{IsReadAlone, seen_file};

use crate::cause::FaultCause;
use crate::counted::CountedFile;
use crate::file::FileRefused;
use crate::folder::Folder;
use crate::found::{are_apart, open_to_read};
use crate::pieces::read_pieces;
use crate::seen::{Seen, store_refusal};
use jf_disk::MAX_SIDE;
use std::alloc::Global;
use std::fs::File;
use std::rt::Files;

// The bytes that are asked of a file at once.
const PIECE: usize = 1 << 20;

// The bytes in front of a file by which its checkpoint is known: gate, kind, length and generation.
const FRONT: usize = 18;

// How often a file is read that another run writes anew meanwhile.
const TRIES: u64 = 16;

/// The bytes of a folder's two files; `None` is a file that is missing.
#[derive(Drop)]
pub struct FolderBytes {
    pub a: Option<Vec<u8>>,
    pub b: Option<Vec<u8>>,
}

impl FolderBytes {
    /// Reads the files `a.jf` and `b.jf` of a folder, which must exist; no folder has the empty name. They are opened for
    /// reading alone: no file is made or changed, and no lock is taken, so another run may write them meanwhile. The
    /// records of each file are then those of one moment, and gates and generations of both files too, unless one
    /// compaction follows another without a pause (docs/FORMATS.md, "Checking files"). Files that another run keeps writing
    /// anew are refused as in use. Both files must be regular and not one file under two names.
    pub fn read<H: Files<File = File>>(
        rt: &H,
        alloc: Global,
        folder: &str,
    ) -> Result<FolderBytes, FileRefused>
        // A folder of the empty name is refused with `NoSuchFolder`.
        ensures { folder.now ≡ [] → result ≡ Err (FileRefused.DiskFailed FaultCause.NoSuchFolder) }
    {
        if folder.is_empty() {
            return Err(FileRefused::DiskFailed(FaultCause::NoSuchFolder));
        }
        let _opened = Folder::open(rt, folder)?;
        let a = format!(in alloc; "{folder}/a.jf")?;
        let b = format!(in alloc; "{folder}/b.jf")?;
        let (a, b) = (open_to_read(rt, a.as_str())?, open_to_read(rt, b.as_str())?);
        if !are_apart(&a, &b)? {
            return Err(FileRefused::DiskFailed(FaultCause::NotAStore));
        }
        both_at_once(alloc, &mut counted_file(a), &mut counted_file(b))
    }

    /// Why no store would be opened over these files, if none would (docs/FORMATS.md, "The files of a folder").
    pub fn refusal(&self) -> Option<FaultCause>
        // The result is that for what is seen of each file: whether it is there, its length and its first byte.
        ensures { result ≡ store_refusal (seen_file (option_map (λ v. v.items) self.now.a)) (seen_file (option_map (λ v. v.items) self.now.b)) }
    {
        store_refusal(seen_file(&self.a), seen_file(&self.b))
    }
}

// What is seen of a file of these bytes.
fn seen_file(file: &Option<Vec<u8>>) -> Seen
    ensures { result ≡ seen_file (option_map (λ v. v.items) file.now) }
{
    match file {
        None => Seen::Missing,
        Some(bytes) => {
            let first = if bytes.is_empty() { 0 } else { bytes[0] };
            Seen::There(bytes.len() as u64, first)
        }
    }
}

// A file that is reached through counted calls, if there is one.
fn counted_file(file: Option<File>) -> Option<CountedFile> {
    match file {
        None => None,
        Some(file) => Some(CountedFile::new(file)),
    }
}

// The bytes of both files, with the gates and generations of one moment: `a` was not written anew until `b` had been read,
// since its front is still the same.
fn both_at_once(
    alloc: Global,
    a: &mut Option<CountedFile>,
    b: &mut Option<CountedFile>,
) -> Result<FolderBytes, FileRefused>
    ensures first { IsReadAlone a.old a.new }
    ensures second { IsReadAlone b.old b.new }
{
    for _ in 0..TRIES {
        let files = FolderBytes {
            a: bytes_if_there(alloc, a)?,
            b: bytes_if_there(alloc, b)?,
        };
        if has_front_if_there(a, &files.a)? {
            return Ok(files);
        }
    }
    Err(FileRefused::DiskFailed(FaultCause::InUse))
}

// The bytes of a file, if there is one.
fn bytes_if_there(
    alloc: Global,
    file: &mut Option<CountedFile>,
) -> Result<Option<Vec<u8>>, FileRefused>
    ensures { IsReadAlone file.old file.new }
{
    match file {
        None => Ok(None),
        Some(file) => Ok(Some(bytes_at_once(alloc, file)?)),
    }
}

// Whether the file, if there is one, still begins as these bytes do.
fn has_front_if_there(
    file: &mut Option<CountedFile>,
    bytes: &Option<Vec<u8>>,
) -> Result<bool, FileRefused>
    ensures { IsReadAlone file.old file.new }
{
    match (file, bytes) {
        (Some(file), Some(bytes)) => has_front(file, bytes),
        _ => Ok(true),
    }
}

// All bytes of a file, whose records are those of one moment: the file was not written anew while it was read, since its
// front then still has the same gate and generation.
fn bytes_at_once(alloc: Global, file: &mut CountedFile) -> Result<Vec<u8>, FileRefused>
    ensures { ReadsAlone file.old file.new }
{
    for _ in 0..TRIES {
        let bytes = bytes_of(alloc, file)?;
        if has_front(file, &bytes)? {
            return Ok(bytes);
        }
    }
    Err(FileRefused::DiskFailed(FaultCause::InUse))
}

// Whether the file still begins as these bytes do.
fn has_front(file: &mut CountedFile, bytes: &[u8]) -> Result<bool, FileRefused>
    ensures { ReadsAlone file.old file.new }
{
    let mut front = [0; FRONT];
    let n = read_pieces(file, 0, &mut front)?;
    Ok(front[..n] == bytes[..bytes.len().min(FRONT)])
}

// All bytes of a file, from the first one on. It goes on until a read finds the end, so that a record that was appended
// meanwhile is there whole if its gate is open.
fn bytes_of(alloc: Global, file: &mut CountedFile) -> Result<Vec<u8>, FileRefused>
    ensures { ReadsAlone file.old file.new }
{
    let mut bytes = Vec::new(alloc);
    for _ in 0..u64::MAX {
        if read_piece(file, &mut bytes)? < PIECE {
            return Ok(bytes);
        }
    }
    Err(FileRefused::DiskFailed(FaultCause::TooLarge))
}

// Appends the bytes of a file that come after these, at most a piece of them, and returns how many they are: fewer than a
// piece only if the file ends there.
fn read_piece(file: &mut CountedFile, bytes: &mut Vec<u8>) -> Result<usize, FileRefused>
    ensures { ReadsAlone file.old file.new }
{
    let start = bytes.len();
    if start as u64 > MAX_SIDE {
        return Err(FileRefused::DiskFailed(FaultCause::TooLarge));
    }
    bytes.resize(start + PIECE, 0)?;
    let n = read_pieces(file, start as u64, &mut bytes[start..])?;
    bytes.truncate(start + n);
    Ok(n)
}
