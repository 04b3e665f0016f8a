// Laws of what files represent. These functions do nothing when they run.
ghost use Rattle.jf_files.specs.Laws.{CheckpointsHaveFormats, CheckpointsAreNumbered, GenerationIsLive, NoRecordsAreNew, NewStoreStands, FilesStandForOne, FilesStandForSound, DamageIsNoVersions, DamageHasOnePlace, FilesAreJudged, CalmBoth, HeldIsStoodFor, StoodForIsHeld, HeldIsSound, OneMoreFollows, CheckpointAlone, StandingsHaveVersions};

use jf_payload::spelled_is_spelling;
use jf_standing::{
    checkpoints_give, items_are_judged, items_fail_once, items_lead_to_one, items_lead_to_sound,
    never_both, new_is_sound, spelled_is_read,
};

/// The kinds of a checkpoint are those of the two formats of nodes.
pub fn checkpoints_have_formats()
    ensures { CheckpointsHaveFormats }
{}

/// A record that spells a checkpoint can begin a side, and the side's generation is the checkpoint's.
pub fn checkpoints_are_numbered()
    ensures { CheckpointsAreNumbered }
{}

/// The generation of two files is that of their live records.
pub fn generation_is_live()
    ensures { GenerationIsLive }
{}

/// Files without records represent a new store.
pub fn no_records_are_new()
    ensures { NoRecordsAreNew }
{}

/// The checkpoint of a new store writes 101 bytes to side A, and these files represent a new store of generation 1.
pub fn new_store_stands()
    ensures { NewStoreStands }
{
    spelled_is_spelling();
    checkpoints_give();
    new_is_sound();
}

/// Files represent at most one list of versions.
pub fn files_stand_for_one()
    ensures { FilesStandForOne }
{
    items_lead_to_one();
    spelled_is_read();
}

/// The versions that files represent are sound.
pub fn files_stand_for_sound()
    ensures { FilesStandForSound }
{
    items_lead_to_sound();
    spelled_is_read();
}

/// Damaged files represent no versions.
pub fn damage_is_no_versions()
    ensures { DamageIsNoVersions }
{
    never_both();
    spelled_is_read();
}

/// Files have at most one first place of damage.
pub fn damage_has_one_place()
    ensures { DamageHasOnePlace }
{
    items_fail_once();
    spelled_is_read();
}

/// Files represent versions, or are damaged.
pub fn files_are_judged()
    ensures { FilesAreJudged }
{
    items_are_judged();
    spelled_is_read();
}

/// A disk whose files represent versions is calm if whatever a crash leaves represents the same versions.
pub fn calm_both()
    ensures { CalmBoth }
{
    items_lead_to_one();
    spelled_is_read();
}

/// Files that hold a standing represent its versions.
pub fn held_is_stood_for()
    ensures { HeldIsStoodFor }
{}

/// Files that hold a record and represent versions hold a standing.
pub fn stood_for_is_held()
    ensures { StoodForIsHeld }
{}

/// The standing that files hold is sound, and so are its versions.
pub fn held_is_sound()
    ensures { HeldIsSound }
{
    items_lead_to_sound();
    spelled_is_read();
}

/// One more record leads to its result for the standing before it.
pub fn one_more_follows()
    ensures { OneMoreFollows }
{
    spelled_is_spelling();
}

/// A checkpoint alone leads to the standing that it gives.
pub fn checkpoint_alone()
    ensures { CheckpointAlone }
{
    spelled_is_spelling();
}

/// Records that lead to a standing lead to its versions.
pub fn standings_have_versions()
    ensures { StandingsHaveVersions }
{}
