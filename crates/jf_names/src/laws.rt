// Laws of answers to names. Each is a call that does nothing when it runs.
ghost use Rattle.jf_names.specs.Laws.{AnswersAreAccepted};

use jf_multi::own_claims_are_accepted;

/// What a map says of names is accepted under its root, with the proof of their keys.
pub fn answers_are_accepted()
    ensures { AnswersAreAccepted }
{
    own_claims_are_accepted();
}
