// The lines of a generated script come one by one, and none is kept.
ghost use Rattle.std.specs.Prelude.{◌≡◌, ◌≤◌, length, IfOk, OnErr};
ghost use Rattle.jf_generate.specs.Scripts.{lines_of_script, max_batches, max_size, max_lines};
ghost use Rattle.jf_generate.specs.Places.{GivesNext};

use crate::line::write_line;
use crate::place::{ScriptPlace, after_batch, behind};
use jf_path::{Bytes, Memory};
use std::marker::Model;

/// Gives a generated script line by line. Contracts see it as the lines that are still to come (docs/FORMATS.md,
/// Generated scripts).
#[derive(Debug, Drop)]
pub struct Generator {
    place: ScriptPlace,
}

impl Model for Generator {
    ghost use Rattle.std.specs.Prelude.{List, ℕ, ◌≤◌, ◌+◌};
    ghost use Rattle.jf_generate.specs.Scripts.{max_batches};
    ghost use Rattle.jf_generate.specs.Places.{to_come};

    ghost Value = { List (List ℕ) };

    ghost view = { λ g. to_come g.place };

    ghost invariant = { λ g. g.place.batch + g.place.later ≤ max_batches };
}

impl Generator {
    /// Begins before the first line of the script of a seed, with 0 to 1,000 batches of 1 to 10,000 puts and deletes.
    pub fn new(seed: u64, batches: u64, size: u64) -> Generator
        // There are at most 1,000 batches.
        requires batches { batches ≤ max_batches }
        // A batch has 1 to 10,000 puts and deletes.
        requires size { (1 ≤ size) × (size ≤ max_size) }
        // The lines to come are all those of the script of this seed, with so many batches of this size.
        ensures lines { result ≡ lines_of_script seed batches size }
        // At most 10,003,002 lines are to come.
        ensures bounded { length result ≤ max_lines }
    {
        let before = ScriptPlace {
            line: None,
            x: seed,
            left: 0,
            batch: 0,
            later: batches,
            size,
        };
        Generator {
            place: after_batch(before),
        }
    }

    /// Appends the next line, without a line feed, and returns whether there was one. If memory runs out, nothing has
    /// changed.
    pub fn next_line(&mut self, out: &mut Bytes) -> Result<bool, Memory>
        // After `Ok(true)` the first line to come was appended and the rest is to come; after `Ok(false)` there was none.
        ensures ok { IfOk result (λ there. GivesNext self.old self.new out.old out.new there) }
        // If memory runs out, the lines to come and the text are unchanged.
        ensures err { OnErr result ((self.new ≡ self.old) × (out.new ≡ out.old)) }
    {
        let Some(line) = self.place.line else {
            return Ok(false);
        };
        write_line(line, out)?;
        self.place = behind(line, self.place);
        Ok(true)
    }
}
