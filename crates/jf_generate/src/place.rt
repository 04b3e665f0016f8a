// A place in a generated script is the line that is to come, and what the lines after it are made of.
ghost use Rattle.std.specs.Prelude.{◌≡◌, ◌≤◌, ◌+◌, ◌++◌};
ghost use Rattle.jf_generate.specs.Scripts.{compact_lines, max_batches};
ghost use Rattle.jf_generate.specs.Places.{to_come, lines_behind, behind_drawn, behind_commit, behind_batch};

use crate::line::{ScriptLine, next_drawn};

/// A place in a script.
#[derive(Clone, Copy, Debug)]
pub(crate) struct ScriptPlace {
    /// The line that is to come, and `None` after the last.
    pub line: Option<ScriptLine>,
    /// The number that was drawn last.
    pub x: u64,
    /// How many numbers are drawn for the batch after this line.
    pub left: u64,
    /// The number of the batch, from 1.
    pub batch: u64,
    /// How many batches come after this one.
    pub later: u64,
    /// How many numbers are drawn for each batch.
    pub size: u64,
}

/// The place after a line that is to come.
pub(crate) fn behind(line: ScriptLine, place: ScriptPlace) -> ScriptPlace
    requires { place.batch + place.later ≤ max_batches }
    ensures lines { to_come result ≡ lines_behind line place }
    ensures bounded { result.batch + result.later ≤ max_batches }
{
    match line {
        ScriptLine::Drawn(_) => in_batch(place),
        ScriptLine::Commit => after_commit(place),
        ScriptLine::Prune(_) => after_prune(place),
        ScriptLine::Compact => after_batch(place),
        ScriptLine::Root => at(Some(ScriptLine::Status), place),
        ScriptLine::Status => at(None, place),
    }
}

/// The place where this line is to come, and all else is the same.
fn at(line: Option<ScriptLine>, place: ScriptPlace) -> ScriptPlace
    ensures { result ≡ record { line = line; x = place.x; left = place.left; batch = place.batch; later = place.later; size = place.size } }
{
    ScriptPlace { line, ..place }
}

/// The place where the rest of a batch is to come: a drawn line if one is left, and else the commit.
fn in_batch(place: ScriptPlace) -> ScriptPlace
    requires { place.batch + place.later ≤ max_batches }
    ensures lines { to_come result ≡ behind_drawn place }
    ensures bounded { result.batch + result.later ≤ max_batches }
{
    if place.left == 0 {
        return at(Some(ScriptLine::Commit), place);
    }
    let x = next_drawn(place.x);
    ScriptPlace {
        line: Some(ScriptLine::Drawn(x)),
        x,
        left: place.left - 1,
        batch: place.batch,
        later: place.later,
        size: place.size,
    }
}

/// The place after the commit: `prune` if the batch's number is a multiple of 10.
fn after_commit(place: ScriptPlace) -> ScriptPlace
    requires { place.batch + place.later ≤ max_batches }
    ensures lines { to_come result ≡ behind_commit place }
    ensures bounded { result.batch + result.later ≤ max_batches }
{
    if place.batch % 10 == 0 {
        let upto = place.batch.saturating_sub(5);
        at(Some(ScriptLine::Prune(upto)), place)
    } else {
        after_prune(place)
    }
}

/// The place after that: `compact` if the batch's number is a multiple of 25.
fn after_prune(place: ScriptPlace) -> ScriptPlace
    requires { place.batch + place.later ≤ max_batches }
    ensures lines { to_come result ≡ compact_lines place.batch ++ behind_batch place }
    ensures bounded { result.batch + result.later ≤ max_batches }
{
    if place.batch % 25 == 0 {
        at(Some(ScriptLine::Compact), place)
    } else {
        after_batch(place)
    }
}

/// The place after a batch: the next one, or the end of the script.
pub(crate) fn after_batch(place: ScriptPlace) -> ScriptPlace
    requires { place.batch + place.later ≤ max_batches }
    ensures lines { to_come result ≡ behind_batch place }
    ensures bounded { result.batch + result.later ≤ max_batches }
{
    if place.later == 0 {
        return at(Some(ScriptLine::Root), place);
    }
    in_batch(ScriptPlace {
        line: None,
        x: place.x,
        left: place.size,
        batch: place.batch + 1,
        later: place.later - 1,
        size: place.size,
    })
}
