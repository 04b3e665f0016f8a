// Laws of what two files hold, and of a pair in step with a disk, for proofs of code that uses them. These functions do
// nothing when they run.
ghost use Rattle.jf_pair.specs.Laws.{FilesHoldOneList, UndamagedFilesHoldRecords, CrashesLeaveLiveRecords, LiveSideIsThePairs};

/// Two files hold at most one list of live records.
pub fn files_hold_one_list()
    ensures { FilesHoldOneList }
{}

/// Two files hold live records exactly if no damage shows in their gates, lengths and first records.
pub fn undamaged_files_hold_records()
    ensures { UndamagedFilesHoldRecords }
{}

/// If a disk is in step with a pair, it holds the pair's live records, and so does whatever a crash leaves.
pub fn crashes_leave_live_records()
    ensures { CrashesLeaveLiveRecords }
{}

/// If a disk is in step with a pair whose side is live, that side is the live one of the files.
pub fn live_side_is_the_pairs()
    ensures { LiveSideIsThePairs }
{}
