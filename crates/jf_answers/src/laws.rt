// Laws on answers, and on what a history explains, for proofs of code that stands on them. These functions do nothing
// when they run.
ghost use Rattle.jf_answers.specs.Laws.{AnswersAreLegal, RunsAreLegal, OneSessionExplainsItself, OneSessionExplainsAll, FloorSparesPins, EntrySparesPins};

/// The entry that a line gives over a sound state is legal.
pub fn answers_are_legal()
    ensures { AnswersAreLegal }
{}

/// The entries of a session that runs alone over a sound state are legal in turn.
pub fn runs_are_legal()
    ensures { RunsAreLegal }
{}

/// The replies to the first lines of one session's script are explained by the entries that they made.
pub fn one_session_explains_itself()
    ensures { OneSessionExplainsItself }
{}

/// All replies of one session that runs alone are explained by its own entries.
pub fn one_session_explains_all()
    ensures { OneSessionExplainsAll }
{}

/// After lines of a session that runs alone, no first part of the entries that they gave has a floor above a version that the
/// session has then pinned.
pub fn floor_spares_pins()
    ensures { FloorSparesPins }
{}

/// Nor has the entry of one line more.
pub fn entry_spares_pins()
    ensures { EntrySparesPins }
{}
