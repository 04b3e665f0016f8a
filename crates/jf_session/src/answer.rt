// An answer as text: the line of a reply, and the block after it (docs/FORMATS.md, "Replies").
ghost use Rattle.std.specs.Prelude.{◌≡◌, ℕ, ◌<◌, ◌≤◌, ◌++◌, length, IfOk, IfErr, OnOk, OnErr};
ghost use Rattle.std.specs.FinMap.{get, len};
ghost use Rattle.jf_hash.specs.Hashes.{K};
ghost use Rattle.jf_evidence.specs.Proofs.{honest};
ghost use Rattle.jf_evidence.specs.Ranges.{chunk_entries, honest_chunk};
ghost use Rattle.jf_script.specs.Replies.{reply_text};
ghost use Rattle.jf_blocks.specs.Blocks.{proof_lines, chunk_lines};

use jf_blocks::{write_chunk, write_proof};
use jf_hash::key_of;
use jf_node::Snapshot;
use jf_path::{Bytes, Memory};
use jf_proof::prove;
use jf_range::{RangeAsk, prove_range};
use jf_script::{Reply, write_reply};
use std::alloc::Global;

// Appends the line of a reply, and a block after it. If memory runs out, the text is unchanged.
pub(crate) fn write_answer(
    seen: u64,
    reply: &Reply,
    block: &[u8],
    out: &mut Bytes,
) -> Result<(), Memory>
    ensures ok { OnOk result (out.new ≡ out.old ++ (reply_text seen reply.now ++ block.now)) }
    ensures err { OnErr result (out.new ≡ out.old) }
{
    let before = out.len();
    write_reply(seen, reply, out)?;
    match out.append(block) {
        Ok(()) => Ok(()),
        Err(Memory) => {
            out.truncate(before);
            Err(Memory)
        }
    }
}

// Appends what a snapshot says of a name and the proof of it, and returns how many siblings the proof has.
pub(crate) fn write_proof_of(
    alloc: Global,
    snapshot: &Snapshot,
    name: &[u8],
    out: &mut Bytes,
) -> Result<u64, Memory>
    ensures count { IfOk result (λ n. n ≡ length (honest snapshot.now.map (K name.now)).siblings) }
    ensures lines { OnOk result (out.new ≡ out.old ++ proof_lines name.now (get snapshot.now.map (K name.now)) (honest snapshot.now.map (K name.now))) }
{
    let key = key_of(name);
    let proof = prove(alloc, snapshot, &key)?;
    write_proof(name, snapshot.get(&key), &proof, out)?;
    Ok(proof.siblings.len())
}

// Appends the entries of a snapshot from a place on with their proof, and returns the reply to them.
pub(crate) fn write_chunk_of(
    alloc: Global,
    snapshot: &Snapshot,
    start: u64,
    count: u64,
    out: &mut Bytes,
) -> Result<Reply, RangeAsk>
    requires { 1 ≤ count }
    ensures within { OnOk result (start < len snapshot.now.map) }
    ensures reply { IfOk result (λ r. r ≡ Reply.Chunk (length (chunk_entries snapshot.now.map start count)) (honest_chunk snapshot.now.map start count).depth (length (honest_chunk snapshot.now.map start count).siblings)) }
    ensures lines { OnOk result (out.new ≡ out.old ++ chunk_lines (chunk_entries snapshot.now.map start count) (honest_chunk snapshot.now.map start count)) }
    ensures beyond { IfErr result (λ why. (n : ℕ) → why ≡ RangeAsk.Beyond n → (n ≡ len snapshot.now.map) × (n ≤ start) × (out.new ≡ out.old)) }
{
    let (entries, proof) = prove_range(alloc, snapshot, start, count)?;
    write_chunk(&entries, &proof, out)?;
    Ok(Reply::Chunk {
        entries: entries.len(),
        depth: proof.depth,
        siblings: proof.siblings.len(),
    })
}
