// The line that says what a reply shows of a name.
ghost use Rattle.std.specs.Prelude.{◌≡◌, [], ◌∷◌, ◌++◌, IfSome, IfOk, OnOk, Err, codes};
ghost use Rattle.jf_text.specs.Words.{line_text};
ghost use Rattle.jf_ask.specs.Lookups.{lookup_of};
ghost use Rattle.jf_judge.specs.JudgedReplies.{lookup_text};

use jf_ask::{Lookup, LookupFault};
use jf_path::{Bytes, Memory};
use jf_text::write_number;
use std::alloc::Global;

/// The line of what a reply shows: `value =VALUE`, `none` or `refused N`.
pub(crate) fn lookup_line(alloc: Global, found: Lookup<'_>) -> Result<Bytes, Memory>
    ensures { IfSome (lookup_of found.entry) (λ shown. IfOk result (λ line. line ≡ lookup_text shown)) }
{
    let mut line = Bytes::new(alloc);
    write_lookup(found, &mut line)?;
    Ok(line)
}

// Appends that line.
fn write_lookup(found: Lookup<'_>, out: &mut Bytes) -> Result<(), Memory>
    ensures { IfSome (lookup_of found.entry) (λ shown. OnOk result (out.new ≡ out.old ++ lookup_text shown)) }
{
    match found {
        Lookup::Value(digits) => write_value(digits, out),
        Lookup::Absent => out.append(b"none\n"),
        Lookup::Refused(why) => write_refused(why, out),
    }
}

// Appends the line of a value, given by its digits.
fn write_value(digits: &[u8], out: &mut Bytes) -> Result<(), Memory>
    ensures { OnOk result (out.new ≡ out.old ++ line_text (codes "value" ∷ (61 ∷ digits.now) ∷ [])) }
{
    out.append(b"value =")?;
    out.append(digits)?;
    out.push(b'\n')
}

// Appends the line of the cause for which nothing is shown.
fn write_refused(why: LookupFault, out: &mut Bytes) -> Result<(), Memory>
    ensures { OnOk result (out.new ≡ out.old ++ lookup_text (Err why)) }
{
    write_number(b"refused ", u64::from(why.number()), out)?;
    out.push(b'\n')
}
