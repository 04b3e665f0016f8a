// Laws on followers, for proofs of code that stands on them. These functions do nothing when they run.
ghost use Rattle.jf_follow.specs.Laws.{FollowersAgree, FollowersRefuseOnlyLast, FollowersOfTextAgree, InputsAgree, FollowersCollide, FollowingGoesOn, FollowingReplays, FollowingIsLegal, FollowedIsHistory, BlocksComeAgain, InputsDecide};
ghost use Rattle.jf_follow.specs.Takes.{ResultsAreExact};

/// A follower that begins with a leader's versions and takes all landings of its history has the leader's versions.
pub fn followers_agree()
    // A follower that took all landings of a leader has the leader's versions.
    ensures { FollowersAgree }
{}

/// A leader's landings are refused only if a map grows past 2^62 entries, or the versions end.
pub fn followers_refuse_only_last()
    // No landing of a leader is refused, unless the maps or the versions end.
    ensures { FollowersRefuseOnlyLast }
{}

/// A follower that begins with a leader's versions and takes the whole text of its landings has the leader's versions.
pub fn followers_of_text_agree()
    // After the whole text of a leader's landings a follower has the leader's versions.
    ensures { FollowersOfTextAgree }
{}

/// A store that followed the whole text of a leader's landings has the leader's versions.
pub fn inputs_agree()
    // After an input that is the whole text of a leader's landings a store has the leader's versions.
    ensures { InputsAgree }
{}

/// Two stores of one version and root whose maps differ give a collision.
pub fn followers_collide()
    // Two maps that differ under one root give two lists of bytes with one hash.
    ensures { FollowersCollide }
{}

/// The blocks after others are followed from where those led.
pub fn following_goes_on()
    // A text may be followed in parts.
    ensures { FollowingGoesOn }
{}

/// The entries of a follower lead to its versions.
pub fn following_replays()
    // What a follower's entries lead to is what it shows.
    ensures { FollowingReplays }
{}

/// The entries of a follower are legal.
pub fn following_is_legal()
    // Each entry of a follower may come where it comes.
    ensures { FollowingIsLegal }
{}

/// The entries that are handed back are a history, and lead to the versions of the store.
pub fn followed_is_history()
    // The entries that are handed back explain the versions.
    ensures { FollowedIsHistory }
{}

/// Blocks that were taken and come again change nothing.
pub fn blocks_come_again()
    // A text that comes a second time changes nothing.
    ensures { BlocksComeAgain }
{}

/// A store that is whole does with each landing what the table says, and a broken one refuses it.
pub fn results_are_exact()
    // What comes of a landing is what the table says, and of a broken store a refusal.
    ensures { ResultsAreExact }
{}

/// How an input is followed is decided by the input.
pub fn inputs_decide()
    // A refusal is the first one of the input; nothing but a device or memory ends it otherwise.
    ensures { InputsDecide }
{}
