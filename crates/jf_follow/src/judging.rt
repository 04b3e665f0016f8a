// How a store judges an announced landing, by what it has recorded.
ghost use Rattle.std.specs.Prelude.{◌≡◌, ◌≢◌, ◌+◌, ◌≤◌};
ghost use Rattle.jf_follow.specs.Following.{judgement, announced_landing};

use crate::fault::FollowFault;
use jf_disk::Disk;
use jf_engine::Engine;
use jf_hash::Hash;
use jf_split::Batch;

/// How versions judge an announced landing.
#[derive(Clone, Copy, Debug, PartialEq, Eq)]
pub enum Judgement {
    /// The version is there already, with this root.
    Known,
    /// It is the next version, and is to be landed: in the table if the batch leads to this root; `judge` leaves that to the
    /// landing, and says so of each landing of the version after the head.
    Next,
    /// It is refused.
    Refused(FollowFault),
}

/// Judges a landing by what is recorded of a store's versions. `Next` says that it is of the version after the head, whose
/// root isn't recorded: it is to be landed if its batch results in the announced root.
pub(crate) fn judge<D: Disk>(
    engine: &Engine<D>,
    version: u64,
    root: &Hash,
    batch: &Batch,
) -> Judgement
    ensures judged { result ≢ Judgement.Next → result ≡ judgement engine.now.versions (announced_landing version root.now batch.now) }
    ensures next { result ≡ Judgement.Next → version ≡ engine.now.versions.head + 1 }
{
    engine.know();
    let state = engine.state();
    if version < state.base {
        return Judgement::Refused(FollowFault::Below(state.base));
    }
    if version <= state.head {
        return judge_known(engine, version, root, batch);
    }
    if version - 1 > state.head {
        return Judgement::Refused(FollowFault::Gap(state.head));
    }
    Judgement::Next
}

/// Judges a landing of a version whose root is recorded, by the roots alone.
fn judge_known<D: Disk>(engine: &Engine<D>, version: u64, root: &Hash, batch: &Batch) -> Judgement
    requires low { engine.now.versions.base ≤ version }
    requires high { version ≤ engine.now.versions.head }
    ensures recorded { result ≢ Judgement.Next }
    ensures judged { result ≡ judgement engine.now.versions (announced_landing version root.now batch.now) }
{
    let _ = batch;
    let Some(recorded) = engine.root_of(version) else {
        unreachable!()
    };
    if recorded == *root {
        return Judgement::Known;
    }
    let announced = *root;
    Judgement::Refused(FollowFault::Differs {
        version,
        announced,
        found: recorded,
    })
}
