// Runs of `serve`, and the texts that they may write.
use jf_disk::MemDisk;
use jf_join::Gate;
use jf_play::play::{Faults, NO_FAULTS, Played, has_ended, new_disk, one_word, play, play_gated};
use jf_play::roots::with_roots;
use jf_run::status::Status;
use std::alloc::Global;
use std::sync::Wait;
use std::test::Fail;
use std::thread::Threads;

/// Runs `serve` over a new disk and this input, with faults of the source and of the sink.
pub(crate) fn serve<H: Threads + Wait + Sync>(
    rt: &H,
    alloc: Global,
    input: &[u8],
    faults: Faults,
) -> Result<Played<MemDisk>, Fail> {
    let disk = new_disk(alloc, b"", &[])?;
    play(rt, alloc, disk, "serve", input, faults)
}

/// Runs `serve` over a disk and this input. The gate is notified of each session and of each piece of work.
pub(crate) fn serve_gated<H: Threads + Wait + Sync, G: Gate>(
    rt: &H,
    alloc: Global,
    disk: Box<MemDisk>,
    input: &[u8],
    gate: &G,
) -> Result<Played<MemDisk>, Fail> {
    let words = one_word(alloc, "serve")?;
    play_gated(rt, alloc, disk, &words, input, gate)
}

/// An input, and the texts of which one is written: sessions may be answered in any order. Letters represent roots, as in
/// `with_roots`.
pub(crate) type Row = (&'static str, &'static [&'static str]);

// Whether a run over a new store ended well, and wrote one of these texts.
fn wrote_one_of(alloc: Global, played: &Played<MemDisk>, texts: &[&str]) -> Result<bool, Fail> {
    for text in texts {
        let want = with_roots(alloc, text)?;
        if has_ended(played, Status::Done, Some(0), &want) {
            return Ok(true);
        }
    }
    Ok(false)
}

// Fails unless the input of a row is served as the row says.
fn is_served<H: Threads + Wait + Sync>(rt: &H, alloc: Global, row: &Row) -> Result<(), Fail> {
    let played = serve(rt, alloc, row.0.as_bytes(), NO_FAULTS)?;
    if wrote_one_of(alloc, &played, row.1)? {
        Ok(())
    } else {
        Err(Fail::new(row.0))
    }
}

/// Fails, with an input that isn't served as its row says, unless all are.
pub(crate) fn are_served<H: Threads + Wait + Sync>(
    rt: &H,
    alloc: Global,
    rows: &[Row],
) -> Result<(), Fail> {
    for row in rows {
        is_served(rt, alloc, row)?;
    }
    Ok(())
}
