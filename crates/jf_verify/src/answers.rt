// The verdicts as lines. If memory runs out, a part of a line may have been appended.
ghost use Rattle.std.specs.Prelude.{◌≡◌, ◌++◌, ◌∷◌, [], Some, codes};
ghost use Rattle.std.specs.Result.{result_err};
ghost use Rattle.std.specs.Prelude.{decimal};
ghost use Rattle.jf_text.specs.Words.{line_text};
ghost use Rattle.jf_verify.specs.Verdicts.{HasWritten, NamesOneOf, fault_number, refused_text, many_verdict_text, collision_text, syntax_text};

use jf_multi::ManyFault;
use jf_path::{Bytes, Memory};
use jf_proof::ProofFault;
use jf_text::{write_hex, write_number};

/// The number of the check that failed, from 1 to 4.
fn fault_number(why: ProofFault) -> u64
    ensures { result ≡ fault_number why }
{
    match why {
        ProofFault::TooDeep => 1,
        ProofFault::WrongLeaf => 2,
        ProofFault::WrongPrefix => 3,
        ProofFault::WrongRoot => 4,
    }
}

/// Appends the line of a claim that is refused, with the number of the check that failed.
pub(crate) fn write_refused(why: ProofFault, out: &mut Bytes) -> Result<(), Memory>
    ensures { HasWritten result out.old out.new (refused_text why) }
{
    write_numbered(b"refused ", fault_number(why), out)
}

/// Appends the line of the verdict on a block of this many claims. In it claims are counted from 1.
pub(crate) fn write_many_verdict(
    verdict: Result<(), ManyFault>,
    claims: u64,
    out: &mut Bytes,
) -> Result<(), Memory>
    requires { NamesOneOf claims (result_err verdict) }
    ensures { HasWritten result out.old out.new (many_verdict_text (result_err verdict)) }
{
    match verdict {
        Ok(()) => out.append(b"accepted\n"),
        Err(ManyFault::Shape) => out.append(b"refused 1\n"),
        Err(ManyFault::Missing(i)) => write_numbered(b"refused 2 ", i + 1, out),
        Err(ManyFault::Single(i, why)) => {
            write_number(b"refused 3 ", i + 1, out)?;
            write_numbered(b" ", fault_number(why), out)
        }
    }
}

/// Appends the line that names line `at`, which doesn't match.
pub(crate) fn write_syntax(at: u64, out: &mut Bytes) -> Result<(), Memory>
    ensures { HasWritten result out.old out.new (syntax_text at) }
{
    write_numbered(b"syntax ", at, out)
}

/// Appends the line of two lists of bytes that have one hash.
pub(crate) fn write_collision(first: &[u8], second: &[u8], out: &mut Bytes) -> Result<(), Memory>
    ensures { HasWritten result out.old out.new (collision_text (Some (first.now, second.now))) }
{
    write_hex(b"collision ", first, out)?;
    write_hex(b" ", second, out)?;
    out.push(b'\n')
}

/// Appends a label and a number after it, and ends the line.
fn write_numbered(label: &[u8], number: u64, out: &mut Bytes) -> Result<(), Memory>
    ensures { HasWritten result out.old out.new (label.now ++ (decimal number ++ 10 ∷ [])) }
{
    write_number(label, number, out)?;
    out.push(b'\n')
}
