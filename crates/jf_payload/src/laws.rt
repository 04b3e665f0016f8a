// Laws of spellings, for proofs of code that uses them. These functions do nothing when they run.
ghost use Rattle.jf_payload.specs.Laws.{SpelledIsSpelling, OneRecord, OneSpelling, SpellingIsDecided, KeptIsSpelled, WrittenInBoth};

/// `spelled_record` gives just the record that a payload spells.
pub fn spelled_is_spelling()
    ensures { SpelledIsSpelling }
{}

/// A payload of a kind spells at most one record.
pub fn one_record()
    ensures { OneRecord }
{}

/// A record has one spelling in a format.
pub fn one_spelling()
    ensures { OneSpelling }
{}

/// A payload spells a record, or it doesn't.
pub fn spelling_is_decided()
    ensures { SpellingIsDecided }
{}

/// What a format keeps of a record has the record's spelling; a record that can be spelled in the format is kept whole.
pub fn kept_is_spelled()
    ensures { KeptIsSpelled }
{}

/// What can be spelled in format 2 can be written in both formats.
pub fn written_in_both()
    ensures { WrittenInBoth }
{}
