//! What the records of a journal of nodes make, one after another: nodes by name, each with the version since which it
//! is stale; when these nodes are sound; and what a landing writes. Definitions with their laws.
#![tactic(auto)]

mod format_laws;
mod item_laws;
mod laws;
mod order_laws;
mod spelling_laws;

pub use format_laws::{
    formats_are_kept, formats_are_sound, formats_follow, formats_group, formats_land,
};
pub use item_laws::{
    begin_is_gives, items_are_judged, items_fail_once, items_lead_to_one, items_lead_to_sound,
    keys_stay, never_both, next_is_takes, spelled_is_read,
};
pub use laws::{
    batches_land, counts_are_extra, floors_prune, groups_land, landings_are_decided,
    landings_are_read, landings_are_sound, landings_are_valid, landings_land, names_rise,
    nodes_stand, read_is_batch, room_is_left, sound_is_landing, stale_names_are_landings,
    updates_are_landings, versions_are_sound,
};
pub use order_laws::{
    built_is_sound, checkpoints_are_decided, checkpoints_give, imports_are_sound, new_is_sound,
    nodes_are_kept, nodes_are_valid, one_standing, order_is_free,
};
pub use spelling_laws::{checkpoints_are_spelled, landings_are_kept, landings_are_spelled};
