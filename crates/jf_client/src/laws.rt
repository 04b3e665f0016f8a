// Laws for proofs of code that stands on them. The functions do nothing when they run.
ghost use Rattle.jf_client.specs.Laws.{HonestRepliesAreAccepted};
ghost use Rattle.jf_client.specs.ChunkLaws.{HonestChunksAreRestored};
ghost use Rattle.jf_client.specs.RunLaws.{WholeRunsAreJudged};
ghost use Rattle.jf_client.specs.ManyLaws.{ManyAnswersAreAccepted};
ghost use Rattle.jf_client.specs.LookupLaws.{HonestProofsAreBelieved};

use jf_ask::honest_blocks_are_believed;
use jf_blocks::{
    blocks_are_read_back, chunks_are_read_back, replies_begin_blocks, replies_begin_chunks,
    replies_set_roots,
};
use jf_evidence::{honest_chunks_are_accepted, honest_chunks_go_on, honest_claims_are_accepted};
use jf_many_blocks::{many_blocks_are_read_back, many_lines_begin_blocks};
use jf_names::answers_are_accepted;

/// The replies to `root` and to `prove` on one version, one after the other, are judged `accepted`, and nothing else is
/// said.
pub fn honest_replies_are_accepted()
    ensures { HonestRepliesAreAccepted }
{
    blocks_are_read_back();
    replies_begin_blocks();
    replies_set_roots();
    honest_claims_are_accepted();
}

/// The replies to `chunk` on one version, one after another, restore its entries under its root.
pub fn honest_chunks_are_restored()
    ensures { HonestChunksAreRestored }
{
    chunks_are_read_back();
    replies_begin_chunks();
    honest_chunks_are_accepted();
    honest_chunks_go_on();
}

/// The replies to lines that ask for roots of maps, for proofs of names in the map whose root was asked for last, and for
/// anything else, are judged as they are, one after another: each proof is accepted, and each line of the other replies is
/// answered `syntax`. Maps with one root have to be one map.
pub fn whole_runs_are_judged()
    ensures { WholeRunsAreJudged }
{
    blocks_are_read_back();
    replies_begin_blocks();
    replies_set_roots();
    honest_claims_are_accepted();
}

/// The reply to a line that asks for the proof of a name in a map, of a version or a fork, is believed: a lookup of the
/// name in it, under the map's root, gives what the map says.
pub fn honest_proofs_are_believed()
    ensures { HonestProofsAreBelieved }
{
    honest_blocks_are_believed();
}

/// What the mode `many` writes of a map for an input of names, after the line that sets the map's root, is judged
/// `accepted`, and nothing else is said.
pub fn many_answers_are_accepted()
    ensures { ManyAnswersAreAccepted }
{
    many_blocks_are_read_back();
    many_lines_begin_blocks();
    replies_set_roots();
    answers_are_accepted();
}
