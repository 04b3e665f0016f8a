// Laws of the steps of a store. These functions do nothing when they run.
ghost use Rattle.jf_files.specs.StepLaws.{LandingsFollow, FloorsFollow, CheckpointsFollow, CompactionsFollow, ImportsFollow, FirstFollows, StopsByRecords, SucceedsByRecords, SucceedsAfterReading, OpensByRecords, BeginsByRecords};

use jf_payload::spelled_is_spelling;
use jf_standing::{
    checkpoints_give, floors_prune, formats_are_sound, groups_land, imports_are_sound, new_is_sound,
};

/// A record of landings leads to the versions with these batches landed.
pub fn landings_follow()
    ensures { LandingsFollow }
{
    spelled_is_spelling();
    groups_land();
}

/// A record of a floor leads to the versions from that floor on.
pub fn floors_follow()
    ensures { FloorsFollow }
{
    spelled_is_spelling();
    floors_prune();
}

/// A checkpoint of a sound standing leads, alone, to the same nodes in the order of their names, and the same versions.
pub fn checkpoints_follow()
    ensures { CheckpointsFollow }
{
    spelled_is_spelling();
    checkpoints_give();
}

/// A checkpoint in format 2 leads, alone, to the versions of what the file's format keeps of the standing.
pub fn compactions_follow()
    ensures { CompactionsFollow }
{
    spelled_is_spelling();
    checkpoints_give();
    formats_are_sound();
}

/// A checkpoint of one map leads, alone, to that map as one version.
pub fn imports_follow()
    ensures { ImportsFollow }
{
    spelled_is_spelling();
    checkpoints_give();
    imports_are_sound();
}

/// The first checkpoint of a new store leads to a new store, as an empty list of records does.
pub fn first_follows()
    ensures { FirstFollows }
{
    spelled_is_spelling();
    checkpoints_give();
    new_is_sound();
}

/// If crashes leave the live records from before a step or from after it, and these lead to the versions before and
/// after it, the step stops well.
pub fn stops_by_records()
    ensures { StopsByRecords }
{}

/// A step has succeeded when a pair of files is in step with records that lead to the versions after it.
pub fn succeeds_by_records()
    ensures { SucceedsByRecords }
{}

/// Calls that change nothing in the files may come before a step.
pub fn succeeds_after_reading()
    ensures { SucceedsAfterReading }
{}

/// An opening that finds records has succeeded when a pair of files is in step with them.
pub fn opens_by_records()
    ensures { OpensByRecords }
{}

/// A first checkpoint on files without a record begins them, whether it succeeds or not.
pub fn begins_by_records()
    ensures { BeginsByRecords }
{}
