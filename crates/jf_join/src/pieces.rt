// Results come in the order of the pieces, whoever works them and when.
ghost use Rattle.std.specs.Prelude.{◌≡◌, ℕ, ◌+◌, ◌^◌, ◌<◌, length, IfOk, slice_index_or};
ghost use Rattle.std.specs.Fn.{FnReturnsAt};
ghost use Rattle.std.specs.Thread.{IsSync, IsSend};
ghost use denote.Ref.{Bor};
ghost use Rattle.jf_join.specs.Answers.{AnswersEach, TakesEach};

use crate::gate::Gate;
use crate::workers::Workers;
use jf_path::Memory;
use std::alloc::Global;
use std::thread::{Threads, join};

/// Applies `f` to each piece: result i is that of piece i. Before piece i is worked on, the gate gets its number, i. At
/// most `workers` pieces are worked at once. Each worker takes pieces that stand one after another, and one of the
/// workers is the caller's own thread; where no thread can be made, the caller does that work too.
pub fn join_pieces<H: Threads + Sync, T: Sync, R: Send + Drop, G: Gate, F: Fn(&T) -> R + Sync>(
    rt: &H,
    alloc: Global,
    pieces: &[T],
    workers: Workers,
    gate: &G,
    f: &F,
) -> Result<Vec<R>, Memory>
    // `f` may be called on each piece.
    requires callable { TakesEach F.Fn f.now pieces.now }
    // After `Ok` there are as many results as pieces, and each is one that `f` may return for the piece at its place.
    ensures { IfOk result (λ v. AnswersEach F.Fn f.now pieces.now v.items) }
{
    join_pieces_from(rt, alloc, pieces, 0, workers, gate, f)
}

/// As `join_pieces`, for pieces that are numbered from `first`. Pieces and workers are halved at each step, and the halves
/// are worked side by side; so the stack grows with the logarithm of the number of workers.
#[cycle(halves)]
pub fn join_pieces_from<H: Threads + Sync, T: Sync, R: Send + Drop, G: Gate, F: Fn(&T) -> R + Sync>(
    rt: &H,
    alloc: Global,
    pieces: &[T],
    first: u64,
    workers: Workers,
    gate: &G,
    f: &F,
) -> Result<Vec<R>, Memory>
    // The number after that of the last piece is below 2^64.
    requires numbered { first + length pieces.now < 2 ^ 64 }
    // `f` may be called on each piece.
    requires callable { TakesEach F.Fn f.now pieces.now }
    // After `Ok` there are as many results as pieces, and each is one that `f` may return for the piece at its place.
    ensures { IfOk result (λ v. AnswersEach F.Fn f.now pieces.now v.items) }
{
    if pieces.len() < 2 {
        return work_in_order(alloc, pieces, first, gate, f);
    }
    let Some((fewer, others)) = workers.halves() else {
        return work_in_order(alloc, pieces, first, gate, f);
    };
    let (fewer, others) = (&fewer, &others);
    let (front, back) = pieces.split_at(pieces.len() / 2);
    let middle = first + front.len() as u64;
    let left = move || -> Result<Vec<R>, Memory>
        // Threads may share or send it all, numbers fit 64 bits, and `f` takes each front piece.
        requires { IsSync H.row × IsSync T.row × IsSend R.row × IsSync G.row × IsSync F.row × (first + length front.now < 2 ^ 64) × TakesEach F.Fn f.now front.now }
        // After `Ok` there is a result for each front piece, one that `f` may return for it.
        ensures { IfOk result (λ v. AnswersEach F.Fn f.entry.now front.entry.now v.items) }
    { join_pieces_from(rt, alloc, front, first, *fewer, gate, f) };
    let right = move || -> Result<Vec<R>, Memory>
        // Threads may share or send it all, numbers fit 64 bits, and `f` takes each back piece.
        requires { IsSync H.row × IsSync T.row × IsSend R.row × IsSync G.row × IsSync F.row × (middle + length back.now < 2 ^ 64) × TakesEach F.Fn f.now back.now }
        // After `Ok` there is a result for each back piece, one that `f` may return for it.
        ensures { IfOk result (λ v. AnswersEach F.Fn f.entry.now back.entry.now v.items) }
    { join_pieces_from(rt, alloc, back, middle, *others, gate, f) };
    let (left, right) = join(rt, left, right);
    let mut answers = left?;
    let mut rest = right?;
    answers.append(&mut rest)?;
    Ok(answers)
}

/// The results of pieces of which the first has the number `first`, worked one after another in the caller's thread.
fn work_in_order<T, R: Drop, G: Gate, F: Fn(&T) -> R>(
    alloc: Global,
    pieces: &[T],
    first: u64,
    gate: &G,
    f: &F,
) -> Result<Vec<R>, Memory>
    requires numbered { first + length pieces.now < 2 ^ 64 }
    requires callable { TakesEach F.Fn f.now pieces.now }
    ensures { IfOk result (λ v. AnswersEach F.Fn f.now pieces.now v.items) }
{
    let mut answers = Vec::with_capacity(alloc, pieces.len())?;
    for (place, piece) in pieces.iter().enumerate() {
        gate.begin(first + place as u64);
        answers.push(answer(f, piece))?;
    }
    Ok(answers)
}

/// What `f` returns for a piece.
fn answer<T, R, F: Fn(&T) -> R>(f: &F, piece: &T) -> R
    requires { (p : Bor T) → p.now ≡ piece.now → F.pre f.now p }
    ensures { FnReturnsAt F.Fn f.now piece.now result }
{
    f(piece)
}
