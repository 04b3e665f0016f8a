// A law on scripts that are run over passes, for proofs of code that stands on it. The function does nothing when it runs.
ghost use Rattle.jf_workload.specs.Laws.{OneScriptIsAlone};

use jf_history::one_end_is_alone;

/// On a store of one pass, a run of a script is that of a session by itself.
pub fn one_script_is_alone()
    // So it is if the store has one pass and began with an empty history.
    ensures { OneScriptIsAlone }
{
    one_end_is_alone();
}
