// Laws of records, one after another. These functions do nothing when they run.
ghost use Rattle.jf_standing.specs.ItemLaws.{NextIsTakes, KeysStay, BeginIsGives, SpelledIsRead, ItemsAreJudged, NeverBoth, ItemsLeadToOne, ItemsLeadToSound, ItemsFailOnce};

use jf_payload::spelled_is_spelling;

/// The result of a record that was read, for a sound standing, is what the function `next_standing` says.
pub fn next_is_takes()
    ensures { NextIsTakes }
{}

/// If all keys have 32 bytes and all values are bytes, this still holds after a landing that writes only such nodes.
pub fn keys_stay()
    ensures { KeysStay }
{}

/// A first record that was read gives what the function `begin` says.
pub fn begin_is_gives()
    ensures { BeginIsGives }
{}

/// What a payload spells has names in order, keys of 32 bytes, values that are bytes, and numbers within their bounds.
pub fn spelled_is_read()
    ensures { SpelledIsRead }
{
    spelled_is_spelling();
}

/// Records lead to a standing, or one of them is the first that isn't sound.
pub fn items_are_judged()
    ensures { ItemsAreJudged }
{}

/// Records that lead to a standing don't fail.
pub fn never_both()
    ensures { NeverBoth }
{}

/// Records lead to at most one standing.
pub fn items_lead_to_one()
    ensures { ItemsLeadToOne }
{}

/// The standing that records lead to is sound, and so are its versions.
pub fn items_lead_to_sound()
    ensures { ItemsLeadToSound }
{}

/// Records fail at no more than one offset.
pub fn items_fail_once()
    ensures { ItemsFailOnce }
{}
