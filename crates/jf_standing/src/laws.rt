// Laws of standings, for proofs of code that uses them. These functions do nothing when they run.
ghost use Rattle.jf_standing.specs.Laws.{NodesStand, VersionsAreSound, LandingsAreSound, SoundIsLanding, LandingsAreDecided, ReadIsBatch, LandingsLand, BatchesLand, RoomIsLeft, UpdatesAreLandings, StaleNamesAreLandings, CountsAreExtra, FloorsPrune, GroupsLand, LandingsAreRead, LandingsAreValid, NamesRise};

/// The nodes alive at a version are those of its map, one at each path.
pub fn nodes_stand()
    ensures { NodesStand }
{}

/// The versions of a sound standing are sound.
pub fn versions_are_sound()
    ensures { VersionsAreSound }
{}

/// A landing of a map on a sound standing leaves a sound standing, whose newest map is that map.
pub fn landings_are_sound()
    ensures { LandingsAreSound }
{}

/// A landing that leaves a sound standing is the landing of that standing's newest map.
pub fn sound_is_landing()
    ensures { SoundIsLanding }
{}

/// A landing that was read leaves a sound standing exactly if it is the landing of the batch that is read off it.
pub fn landings_are_decided()
    ensures { LandingsAreDecided }
{}

/// What is read off a landing is a batch.
pub fn read_is_batch()
    ensures { ReadIsBatch }
{}

/// A landing that leaves a sound standing makes one more version, by the batch that is read off it.
pub fn landings_land()
    ensures { LandingsLand }
{}

/// A landing of a batch makes one more version by that batch.
pub fn batches_land()
    ensures { BatchesLand }
{}

/// A batch adds at most as many entries as it has changes.
pub fn room_is_left()
    ensures { RoomIsLeft }
{}

/// The nodes made with the versions of a snapshot are those of the landing.
pub fn updates_are_landings()
    ensures { UpdatesAreLandings }
{}

/// The names of stale nodes by the versions of a snapshot, in order, are those of the landing.
pub fn stale_names_are_landings()
    ensures { StaleNamesAreLandings }
{}

/// A node without counts is the node with counts, from which the counts are left out.
pub fn counts_are_extra()
    ensures { CountsAreExtra }
{}

/// A later floor leaves a sound standing, with the versions from it on.
pub fn floors_prune()
    ensures { FloorsPrune }
{}

/// Landings of batches in turn are taken, and make a version for each.
pub fn groups_land()
    ensures { GroupsLand }
{}

/// The names that a landing writes and marks stale rise, its keys have 32 bytes, and its values are bytes.
pub fn landings_are_read()
    ensures { LandingsAreRead }
{}

/// Names that rise still rise after a landing and under a later floor.
pub fn names_rise()
    ensures { NamesRise }
{}

/// All that a landing writes has a spelling, if values have at most 4,096 bytes.
pub fn landings_are_valid()
    ensures { LandingsAreValid }
{}
