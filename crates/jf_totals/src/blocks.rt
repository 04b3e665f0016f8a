// The lines of the total, and the blocks of the two proofs.
ghost use Rattle.std.specs.Prelude.{◌≡◌, ◌<◌, ◌≤◌, ◌++◌, [], length, slice_index_or, IfOk, OnOk};
ghost use Rattle.jf_accum.specs.Members.{member};
ghost use Rattle.jf_accum.specs.Extensions.{extension};
ghost use Rattle.jf_totals.specs.Texts.{total_line, member_lines, extends_lines};

use jf_accum::{AccumAsk, Accumulator};
use jf_blocks::write_sides;
use jf_hash::Hash;
use jf_path::{Bytes, HashList, Memory};
use jf_text::{write_hex, write_number};
use std::alloc::Global;

// Appends the line of the total. If memory runs out, part of it may stand after the text, as in all functions here.
#[tactic(auto, unfolding(crate::specs::Texts::total_line))]
pub(crate) fn write_total(roots: &Accumulator, out: &mut Bytes) -> Result<(), Memory>
    ensures { OnOk result (out.new ≡ out.old ++ total_line roots.now) }
{
    write_number(b"total ", roots.len(), out)?;
    write_hex(b" ", &roots.total(), out)?;
    out.push(b'\n')
}

// Appends the block of the root at a place.
#[tactic(auto, unfolding(crate::specs::Texts::member_lines))]
pub(crate) fn write_member(
    alloc: Global,
    roots: &Accumulator,
    index: u64,
    root: &Hash,
    out: &mut Bytes,
) -> Result<(), Memory>
    requires within { index < length roots.now }
    requires root { root.now ≡ slice_index_or roots.now index [] }
    ensures { OnOk result (out.new ≡ out.old ++ member_lines roots.now index) }
{
    let proof = member_proof(alloc, roots, index)?;
    write_number(b"member ", index, out)?;
    write_hex(b" ", root, out)?;
    write_number(b" ", proof.len(), out)?;
    out.push(b'\n')?;
    write_sides(proof.as_slice(), out)
}

// Appends the block of the first `count` roots.
#[tactic(auto, unfolding(crate::specs::Texts::extends_lines))]
pub(crate) fn write_extends(
    alloc: Global,
    roots: &Accumulator,
    count: u64,
    out: &mut Bytes,
) -> Result<(), Memory>
    requires positive { 0 < count }
    requires within { count ≤ length roots.now }
    ensures { OnOk result (out.new ≡ out.old ++ extends_lines roots.now count) }
{
    let proof = extension_proof(alloc, roots, count)?;
    write_number(b"extends ", count, out)?;
    write_number(b" ", proof.len(), out)?;
    out.push(b'\n')?;
    write_sides(proof.as_slice(), out)
}

// The proof of the root at a place.
fn member_proof(alloc: Global, roots: &Accumulator, index: u64) -> Result<HashList, Memory>
    requires { index < length roots.now }
    ensures { IfOk result (λ proof. proof ≡ member roots.now index) }
{
    match roots.prove_member(alloc, index) {
        Ok(proof) => Ok(proof),
        Err(AccumAsk::Memory) => Err(Memory),
        Err(AccumAsk::Beyond(_)) => unreachable!(),
    }
}

// The proof that all roots begin with the first `count`.
fn extension_proof(alloc: Global, roots: &Accumulator, count: u64) -> Result<HashList, Memory>
    requires positive { 0 < count }
    requires within { count ≤ length roots.now }
    ensures { IfOk result (λ proof. proof ≡ extension roots.now count) }
{
    match roots.prove_extends(alloc, count) {
        Ok(proof) => Ok(proof),
        Err(AccumAsk::Memory) => Err(Memory),
        Err(AccumAsk::Beyond(_)) => unreachable!(),
    }
}
