// A line that doesn't match.
ghost use Rattle.jf_verify.specs.Steps.{IsTaken, no_match};

use crate::answers::write_syntax;
use crate::stage::Stage;
use jf_path::{Bytes, Memory};

/// Line `at` doesn't match: it is named, and reading goes on between blocks.
pub(crate) fn no_match(at: u64, out: &mut Bytes) -> Result<Stage, Memory>
    ensures { IsTaken (no_match at) result out.old out.new }
{
    write_syntax(at, out)?;
    Ok(Stage::Between)
}
