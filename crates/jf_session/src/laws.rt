// Laws on sessions that lead, for proofs of code that stands on them. These functions do nothing when they run.
ghost use Rattle.jf_session.specs.Laws.{OnePassLeadsAll, OneLeadTellsAll};

/// In a store of one pass, all landings are those of its session.
pub fn one_pass_leads_all()
    // If the store has one pass, no landing is another session's.
    ensures { OnePassLeadsAll }
{}

/// A script that was run alone on its store, as `lead` runs it, tells the landing blocks of the whole history, and each of
/// them can be written.
pub fn one_lead_tells_all()
    // The blocks of a script that is led alone are those of the whole history, and each can be written.
    ensures { OneLeadTellsAll }
{}
