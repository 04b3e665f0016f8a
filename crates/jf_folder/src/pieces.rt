// Reading and writing a whole range of a file, in as many calls as it takes.
ghost use Rattle.std.specs.Prelude.{◌+◌, ◌<◌, ◌≤◌, ◌^◌, length, IfOk, OnOk};
ghost use Rattle.jf_path.specs.Faults.{HasCause};
ghost use Rattle.jf_folder.specs.Calls.{ReadsAlone, MakesWriteAlone};

use crate::counted::CountedFile;
use std::io;
use std::io::ErrorKind;

/// Reads from offset `at` on until the buffer is full or the file ends, and returns the number of bytes read.
pub(crate) fn read_pieces(file: &mut CountedFile, at: u64, buf: &mut [u8]) -> io::Result<usize>
    requires { at ≤ 2 ^ 62 }
    ensures within { IfOk result (λ n. n ≤ length buf.old) }
    ensures calls { ReadsAlone file.old file.new }
    ensures made { OnOk result (0 < length buf.old → HasCause file.old.reads file.new.reads) }
{
    let mut n = 0;
    for _ in 0..u64::MAX {
        if n == buf.len() {
            return Ok(n);
        }
        match file.read_at(&mut buf[n..], at + n as u64) {
            Ok(0) => return Ok(n),
            Ok(more) => n += more,
            Err(e) if e.kind() == ErrorKind::Interrupted => {}
            Err(e) => return Err(e),
        }
    }
    Err(ErrorKind::Interrupted.into())
}

/// Writes all of `bytes` from offset `at` on.
pub(crate) fn write_pieces(file: &mut CountedFile, at: u64, bytes: &[u8]) -> io::Result<()>
    requires { at + length bytes.now ≤ 2 ^ 62 }
    ensures calls { MakesWriteAlone file.old file.new }
    ensures made { OnOk result (0 < length bytes.now → HasCause file.old.writes file.new.writes) }
{
    let mut n = 0;
    for _ in 0..u64::MAX {
        if n == bytes.len() {
            return Ok(());
        }
        match file.write_at(&bytes[n..], at + n as u64) {
            Ok(0) => return Err(ErrorKind::WriteZero.into()),
            Ok(more) => n += more,
            Err(e) if e.kind() == ErrorKind::Interrupted => {}
            Err(e) => return Err(e),
        }
    }
    Err(ErrorKind::Interrupted.into())
}
