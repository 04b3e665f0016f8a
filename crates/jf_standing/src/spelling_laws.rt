// Laws of landings and checkpoints as records. These functions do nothing when they run.
ghost use Rattle.jf_standing.specs.SpellingLaws.{LandingsAreSpelled, LandingsAreKept, CheckpointsAreSpelled};

/// A landing is a record that has a spelling, if values have at most 4,096 bytes.
pub fn landings_are_spelled()
    ensures { LandingsAreSpelled }
{}

/// What a format keeps of a landing with counts is the landing in that format.
pub fn landings_are_kept()
    ensures { LandingsAreKept }
{}

/// The checkpoint of a sound standing is a record that has a spelling, if values have at most 4,096 bytes.
pub fn checkpoints_are_spelled()
    ensures { CheckpointsAreSpelled }
{}
