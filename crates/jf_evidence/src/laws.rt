// Laws on claims, chunks and maps, for proofs of code that stands on them. These functions do nothing when they run.
ghost use Rattle.jf_evidence.specs.Proofs.{IsLeaf};
ghost use Rattle.jf_evidence.specs.Laws.{HonestClaimsAreAccepted, ContradictingClaimsCollide, WrongClaimsCollide, HonestChunksAreAccepted, HonestChunksGoOn, HonestChunksComeInTurn, WrongChunksCollide, DifferingEntriesCollide, DifferingMapsCollide};

use crate::proof::Proof;
use jf_path::know_key;

/// What a map says of a key is accepted with the honest proof.
pub fn honest_claims_are_accepted()
    // What a map says of a key is accepted with the honest proof.
    ensures { HonestClaimsAreAccepted }
{}

/// Two accepted claims on one key and one root that contradict give a collision.
pub fn contradicting_claims_collide()
    // Two accepted claims on one key and one root that contradict give a collision.
    ensures { ContradictingClaimsCollide }
{}

/// An accepted claim that isn't the map's gives a collision with what the map's honest proof hashes.
pub fn wrong_claims_collide()
    // An accepted claim that isn't the map's gives a collision with the map's honest proof.
    ensures { WrongClaimsCollide }
{}

/// The honest chunk from a place of a map is accepted after the entries before it.
pub fn honest_chunks_are_accepted()
    // The honest chunk from a place of a map is accepted after the entries before it.
    ensures { HonestChunksAreAccepted }
{}

/// The honest chunk from a place of a map goes on where the entries before it end.
pub fn honest_chunks_go_on()
    // The entries before a place and the honest chunk from there are the first of the map.
    ensures { HonestChunksGoOn }
{}

/// Honest chunks of any lengths, taken in order from the first entry on, are each accepted after those before, and
/// their entries are the first of the map.
pub fn honest_chunks_come_in_turn()
    // Honest chunks from the first entry on are accepted one after another, as the first of a map.
    ensures { HonestChunksComeInTurn }
{}

/// An accepted chunk that doesn't go on with the first entries of the map gives a collision with what its root hashes.
pub fn wrong_chunks_collide()
    // An accepted chunk that doesn't go on with the first entries of the map gives a collision.
    ensures { WrongChunksCollide }
{}

/// Two lists of entries that have one root and differ give a collision.
pub fn differing_entries_collide()
    // Two sorted lists of entries that have one root and differ give a collision.
    ensures { DifferingEntriesCollide }
{}

/// Two maps that have one root and differ give a collision.
pub fn differing_maps_collide()
    // Two maps that have one root and differ give a collision.
    ensures { DifferingMapsCollide }
{}

/// The leaf of a proof has a key of 32 bytes.
pub fn know_leaf(proof: &Proof)
    // The leaf of the proof, if there is one, has a key of 32 bytes.
    ensures { IsLeaf proof.now.leaf }
{
    if let Some(leaf) = &proof.leaf {
        know_key(&leaf.0);
    }
}
