// Laws on calls of the program, for proofs of code that stands on them. These functions do nothing when they run.
ghost use Rattle.jf_run.specs.Laws.{LedCallsAreFollowed, LedFilesAreFollowed};

use jf_files::files_stand_for_one;
use jf_follow::inputs_agree;

/// A store that had a leader's versions, and followed the whole text of its landings, has the leader's versions again.
pub fn led_calls_are_followed()
    // Whoever follows all that a leader wrote has the leader's versions.
    ensures { LedCallsAreFollowed }
{
    inputs_agree();
}

/// Files that represented what a leader's represented, over which the whole text of its landings was followed, represent
/// all versions that the leader made from these.
pub fn led_files_are_followed()
    // The files of whoever follows all that a leader wrote represent the leader's versions.
    ensures { LedFilesAreFollowed }
{
    inputs_agree();
    files_stand_for_one();
}
