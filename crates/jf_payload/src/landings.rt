// A landing adds one version: its root, the nodes that it writes, and the names that it marks stale.
ghost use Rattle.std.specs.Prelude.{◌≡◌, []};
ghost use Rattle.jf_payload.specs.Spelling.{are_consecutive};
ghost use Rattle.jf_payload.specs.Reading.{Gives, many_at, commit_at, group_at};

use crate::commits::Commits;
use crate::fault::RecordFault;
use crate::fields::{hash_of, number_of};
use crate::lists::{fresh_list_of, name_list_of};
use crate::order::push_commit;
use crate::records::Commit;
use jf_codec::Format;
use jf_path::MAX_FORKS;
use std::alloc::Global;

/// A landing.
#[tactic(auto, unfolding(crate::specs::Reading::commit_at))]
pub(crate) fn commit_of(
    alloc: Global,
    format: Format,
    bytes: &[u8],
) -> Result<(Commit, &[u8]), RecordFault>
    ensures { Gives (λ x. (x.0, x.1.now)) result (commit_at format bytes.now) }
{
    let (version, rest) = number_of(bytes)?;
    let (root, rest) = hash_of(rest)?;
    let (fresh, rest) = fresh_list_of(alloc, format, rest)?;
    let (stale, rest) = name_list_of(alloc, rest)?;
    let commit = Commit {
        version,
        root: *root,
        fresh,
        stale,
    };
    Ok((commit, rest))
}

// `count` landings, whose versions rise by one.
fn commits_of(
    alloc: Global,
    format: Format,
    count: u64,
    bytes: &[u8],
) -> Result<(Commits, &[u8]), RecordFault>
    ensures { Gives (λ x. (x.0, x.1.now)) result (many_at are_consecutive (commit_at format) count [] bytes.now) }
{
    let mut commits = Commits::new(alloc);
    let mut rest = bytes;
    for _ in 0..count {
        let (commit, after) = commit_of(alloc, format, rest)?;
        push_commit(&mut commits, commit)?;
        rest = after;
    }
    Ok((commits, rest))
}

/// A group: the number of landings, 2 to 1,024, and the landings, whose versions rise by one.
#[tactic(auto, unfolding(crate::specs::Reading::group_at))]
pub(crate) fn group_of(
    alloc: Global,
    format: Format,
    bytes: &[u8],
) -> Result<(Commits, &[u8]), RecordFault>
    ensures { Gives (λ x. (x.0, x.1.now)) result (group_at format bytes.now) }
{
    let (count, rest) = number_of(bytes)?;
    if count < 2 || count > MAX_FORKS {
        return Err(RecordFault::Bad);
    }
    let (commits, rest) = commits_of(alloc, format, count, rest)?;
    Ok((commits, rest))
}
