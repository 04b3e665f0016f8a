// What follows the landing blocks of an input, as a machine that takes lines.
ghost use Rattle.std.specs.Prelude.{◌≡◌, false};
ghost use Rattle.jf_follow.specs.Lines.{FollowState, follow_state, DoesLandingLine, DoesBlock};

use crate::fault::FollowFault;
use crate::followed::FollowRefused;
use crate::follower::Follower;
use crate::taken::Taken;
use jf_disk::Disk;
use jf_input::{AtHand, LineMachine};
use jf_join::{Gate, Workers};
use jf_lead::{LandingBlock, LandingFault, LandingReader};
use jf_model::{BatchNote, Entry, Landing};
use jf_path::Bytes;
use std::alloc::Global;
use std::thread::Threads;

/// What reads the blocks, the store that follows them, and the entries of the landings so far.
#[derive(Drop)]
pub(crate) struct Following<D: Disk> {
    pub(crate) reader: LandingReader,
    pub(crate) follower: Follower<D>,
    pub(crate) entries: Vec<Entry>,
}

/// Why an input isn't followed further.
#[derive(Clone, Copy, Debug, PartialEq, Eq)]
pub enum FollowStop {
    /// A line or a block was refused.
    Refused(FollowRefused),
    /// The disk failed in a landing.
    DiskFault,
    /// Out of memory.
    Memory,
}

/// What clauses see of a following.
pub(crate) trait ShowsFollowing {
    ghost shown: { Self → FollowState };
}

impl<D: Disk> ShowsFollowing for Following<D> {
    ghost shown = { λ f. follow_state f.reader f.follower f.entries.items };
}

/// A following, and the call by which it does a line. A method of a trait can't make that call by its name: what it sends to
/// threads is of types of which only a bound says that they may be sent.
pub(crate) struct LineFollower<T, F> {
    pub(crate) following: T,
    pub(crate) step: F,
}

impl<T: ShowsFollowing, F: Fn(&mut T, &[u8]) -> Result<(), FollowStop>> LineMachine
    for LineFollower<T, F> {
    ghost use Rattle.std.specs.Prelude.{⊤};
    ghost use Rattle.jf_follow.specs.Lines.{MayFollow, TakesLandingLine, EndsLandingLines};

    type Stop = FollowStop;

    ghost ready = { λ t. MayFollow T.shown t.following (F.pre t.step) (F.post t.step) };

    ghost takes = { λ t line next r. TakesLandingLine (T.shown t.following) line (T.shown next.following) r };

    ghost ends = { λ t next r. EndsLandingLines (T.shown t.following) (T.shown next.following) r };

    // Nothing is written before the end of the input.
    ghost quiet = { λ _ _. ⊤ };

    fn is_quiet(&self, _line: &[u8]) -> bool {
        true
    }

    fn take_end(&mut self, _alloc: Global, _out: &mut Bytes) -> Result<(), FollowStop> {
        Ok(())
    }

    fn take_line(
        &mut self,
        _alloc: Global,
        next: AtHand,
        _out: &mut Bytes,
    ) -> Result<(), FollowStop> {
        (self.step)(&mut self.following, next.line)
    }
}

/// Reads a line, and takes the block that ends with it, if one does: after the line the block is in the store.
#[tactic(auto, using(crate::proofs::LandingSteps::line_block, crate::proofs::LandingSteps::line_none, crate::proofs::LandingSteps::line_refused, crate::proofs::LandingSteps::line_memory))]
pub(crate) fn follow_line<D: Disk, H: Threads + Sync, G: Gate>(
    rt: &H,
    alloc: Global,
    following: &mut Following<D>,
    line: &[u8],
    workers: Workers,
    gate: &G,
) -> Result<(), FollowStop>
    requires whole { following.old.follower.broken ≡ false }
    ensures { DoesLandingLine (follow_state following.old.reader following.old.follower following.old.entries.items) line.now result (follow_state following.new.reader following.new.follower following.new.entries.items) }
{
    match following.reader.line(line) {
        Ok(Some((first, block))) => take_block(rt, alloc, following, first, block, workers, gate),
        Ok(None) => Ok(()),
        Err(LandingFault::Line(at)) => Err(FollowStop::Refused(FollowRefused::Line(at))),
        Err(LandingFault::Memory) => Err(FollowStop::Memory),
    }
}

/// Takes a block, whose first line has this number. There is room for its entry before the disk is touched.
fn take_block<D: Disk, H: Threads + Sync, G: Gate>(
    rt: &H,
    alloc: Global,
    following: &mut Following<D>,
    first: u64,
    block: LandingBlock,
    workers: Workers,
    gate: &G,
) -> Result<(), FollowStop>
    requires whole { following.old.follower.broken ≡ false }
    ensures reader { following.new.reader ≡ following.old.reader }
    ensures block { DoesBlock (first, block) following.old.follower following.new.follower following.old.entries.items following.new.entries.items result }
{
    if following.entries.reserve(1).is_err() {
        return Err(FollowStop::Memory);
    }
    let LandingBlock {
        version,
        root,
        batch,
    } = block;
    match following
        .follower
        .take(rt, alloc, version, &root, &batch, workers, gate)
    {
        Ok(Taken::Already) => Ok(()),
        Ok(Taken::Landed(landed)) => {
            following.follower.engine().know();
            following.entries.push_reserved(Entry::Landed {
                owner: 0,
                version,
                how: Landing::Direct(BatchNote::of(&batch)),
                root,
                moment: landed.moment,
            });
            Ok(())
        }
        Err(FollowFault::Broken) => unreachable!(),
        Err(FollowFault::DiskFault) => Err(FollowStop::DiskFault),
        Err(FollowFault::Memory) => Err(FollowStop::Memory),
        Err(why) => Err(FollowStop::Refused(FollowRefused::Block(first, why))),
    }
}
