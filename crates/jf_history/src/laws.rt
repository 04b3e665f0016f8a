// Laws on sessions over passes, for proofs of code that stands on them. These functions do nothing when they run.
ghost use Rattle.jf_history.specs.Laws.{AnswersStay, LooksReply, ChangesReply, NoneAnswered, OneMoreAnswered, OnePassSees, OnePassAdds, OnePassCloses, OneSessionIsAlone, OneSessionTries, OneSessionIsNeverBroken, OneEndIsAlone, OneRunIsAlone, ClosedExplains, ClosedTries, ClosedBlames, ClosedSparesPins, OneServedIsAlone};

/// What was answered stays so if entries follow.
pub fn answers_stay()
    // What was answered stays so if entries follow.
    ensures { AnswersStay }
{}

/// A line that gives no entry, done over what the pass has then seen, is replied to.
pub fn looks_reply()
    // A line that gives no entry, done over what the pass has then seen, is replied to.
    ensures { LooksReply }
{}

/// A line that gives an entry, which is the pass's next event, is replied to.
pub fn changes_reply()
    // A line that gives an entry, which is the pass's next event, is replied to.
    ensures { ChangesReply }
{}

/// A session that begins over a pass has answered no line.
pub fn none_answered()
    // A session that begins over a pass without a mark has answered no line.
    ensures { NoneAnswered }
{}

/// A session that has answered lines and then one more has answered all of them.
pub fn one_more_answered()
    // A session that has answered lines and then replies to one more has answered all of them.
    ensures { OneMoreAnswered }
{}

/// On a store of one pass, a look finds nothing that the pass had not seen.
pub fn one_pass_sees()
    // On a store of one pass, a look finds nothing that the pass had not seen.
    ensures { OnePassSees }
{}

/// On a store of one pass, a change follows just what the pass had seen.
pub fn one_pass_adds()
    // On a store of one pass, a change follows just what the pass had seen.
    ensures { OnePassAdds }
{}

/// When a store of one pass is closed, its history is what the pass has seen.
pub fn one_pass_closes()
    // When a store of one pass is closed, its history is what the pass has seen.
    ensures { OnePassCloses }
{}

/// On a store of one pass, a session answers as one by itself.
pub fn one_session_is_alone()
    // On a store of one pass, a session answers as one by itself.
    ensures { OneSessionIsAlone }
{}

/// If the disk failed on a store of one pass, the attempt is the entry that the line gives a session by itself.
pub fn one_session_tries()
    // If the disk fails on a store of one pass, the attempt is the entry that the line gives.
    ensures { OneSessionTries }
{}

/// On a store of one pass, no session meets the mark of an earlier call.
pub fn one_session_is_never_broken()
    // On a store of one pass, no session meets the mark of an earlier call.
    ensures { OneSessionIsNeverBroken }
{}

/// On a store of one pass, a session that ended has answered its lines as one by itself, and the attempt, if there is one, is
/// the entry that the next line gives a session by itself.
pub fn one_end_is_alone()
    // On a store of one pass, a session that ended answered and tried as one by itself.
    ensures { OneEndIsAlone }
{}

/// On a store of one pass, a whole run is that of a session by itself.
pub fn one_run_is_alone()
    // On a store of one pass, a whole run is that of a session by itself.
    ensures { OneRunIsAlone }
{}

/// On a store of one pass that was closed, a session that was given a script has answered its first lines as one by itself, and
/// their entries are all that the store has.
pub fn one_served_is_alone()
    // On a closed store of one pass, a session without a write fault is that of one by itself.
    ensures { OneServedIsAlone }
{}

/// The history of a store that was closed explains all its sessions.
pub fn closed_explains()
    // The history of a store that was closed explains all its sessions.
    ensures { ClosedExplains }
{}

/// If the disk failed in a session of a store that was closed, what was tried is the attempt of its first line without a
/// reply.
pub fn closed_tries()
    // If the disk failed in a session, the attempt is that of its first line without a reply.
    ensures { ClosedTries }
{}

/// If something was tried on a store that was closed, the disk failed in one of its sessions, and it is that session's
/// attempt.
pub fn closed_blames()
    // If there is an attempt, the disk failed in the session of which it is.
    ensures { ClosedBlames }
{}

/// No image left since a store began, which was then closed, represents versions with a floor above a version that one of
/// its sessions has pinned in the end.
pub fn closed_spares_pins()
    // No image left since the store began has a floor above a version that a session has pinned.
    ensures { ClosedSparesPins }
{}
