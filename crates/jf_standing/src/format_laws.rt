// Laws of what a format keeps of a standing. These functions do nothing when they run.
ghost use Rattle.jf_standing.specs.FormatLaws.{FormatsAreSound, FormatsLand, FormatsFollow, FormatsGroup, FormatsAreKept};

/// What a format keeps of a sound standing with counts is sound in that format, with the same versions.
pub fn formats_are_sound()
    ensures { FormatsAreSound }
{}

/// A landing in a format writes what the format keeps of what it writes with counts.
pub fn formats_land()
    ensures { FormatsLand }
{}

/// Landings and floors on what a format keeps make what the format keeps of what they make.
pub fn formats_follow()
    ensures { FormatsFollow }
{}

/// Landings of batches in turn, on what a format keeps, make what the format keeps of what they make.
pub fn formats_group()
    ensures { FormatsGroup }
{}

/// A sound standing of either format is what the format keeps of it with counts, and with counts it is sound as well.
pub fn formats_are_kept()
    ensures { FormatsAreKept }
{}
