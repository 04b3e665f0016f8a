//! The versions that two files of records represent, or their first place of damage; and what a crash in a step of a
//! store may leave. Definitions with their laws.
#![tactic(auto)]

mod laws;
mod step_laws;

pub use laws::{
    calm_both, checkpoint_alone, checkpoints_are_numbered, checkpoints_have_formats,
    damage_has_one_place, damage_is_no_versions, files_are_judged, files_stand_for_one,
    files_stand_for_sound, generation_is_live, held_is_sound, held_is_stood_for, new_store_stands,
    no_records_are_new, one_more_follows, standings_have_versions, stood_for_is_held,
};
pub use step_laws::{
    begins_by_records, checkpoints_follow, compactions_follow, first_follows, floors_follow,
    imports_follow, landings_follow, opens_by_records, stops_by_records, succeeds_after_reading,
    succeeds_by_records,
};
