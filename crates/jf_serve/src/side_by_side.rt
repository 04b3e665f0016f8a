// Sessions run side by side, each but the first in a thread of its own.
ghost use Rattle.std.specs.Prelude.{◌≡◌, ◌≤◌, map, length};
ghost use Rattle.std.specs.Thread.{IsSync, IsSend};
ghost use Rattle.jf_io.specs.Lines.{lines};
ghost use Rattle.jf_store.specs.Passes.{AreNewPasses, new_pass};
ghost use Rattle.jf_serve.specs.Ran.{HasRunSession, HaveRunSessions, none_gathered};

use crate::gathered::Gathered;
use crate::one_session::{SessionRan, run_session};
use jf_disk::Disk;
use jf_join::{Gate, Workers};
use jf_path::Bytes;
use jf_store::{Pass, Store};
use std::alloc::Global;
use std::sync::Wait;
use std::thread::{Threads, join};

/// Runs one session for each script over the new pass with its number, and gathers their results. The last session is
/// given to a new thread, while the caller goes on with those before it, and runs session 0 itself. So no session waits for
/// another to begin, unless no thread can be made. The number of workers is borrowed, since the borrow checker doesn't
/// cover a closure that owns one.
#[cycle(sessions)]
pub(crate) fn run_side_by_side<D: Disk, H: Threads + Wait + Sync, G: Gate>(
    rt: &H,
    alloc: Global,
    store: &Store<D>,
    scripts: &[Bytes],
    mut passes: Vec<Pass<D>>,
    workers: &Workers,
    gate: &G,
    gathered: Gathered<D>,
) -> Gathered<D>
    requires new { AreNewPasses store.now passes.items 0 }
    requires long { length scripts.now ≡ length passes.items }
    requires empty { gathered ≡ none_gathered gathered.room }
    requires room { length passes.items ≤ gathered.room }
    ensures ran { HaveRunSessions store.now 0 (map lines scripts.now) result }
    ensures room { result.room ≡ gathered.room }
{
    let Some(pass) = passes.pop() else {
        return gathered;
    };
    let Some((script, others)) = scripts.split_last() else {
        unreachable!()
    };
    let script = script.as_slice();
    if others.is_empty() {
        return gathered.with(run_session(rt, alloc, store, pass, script, *workers, gate));
    }
    let last = move || -> SessionRan<D>
        requires { IsSync H.row × IsSend D.row × IsSync G.row × (pass ≡ new_pass store.now pass.number) }
        ensures { HasRunSession store.entry.now pass.number (lines script.entry.now) result.end result.text result.pass }
    { run_session(rt, alloc, store, pass, script, *workers, gate) };
    let before = move || -> Gathered<D>
        requires { IsSync H.row × IsSend D.row × IsSync G.row × AreNewPasses store.now passes.items 0 × (length others.now ≡ length passes.items) × (gathered ≡ none_gathered gathered.room) × (length passes.items ≤ gathered.room) }
        ensures { HaveRunSessions store.entry.now 0 (map lines others.entry.now) result × (result.room ≡ gathered.room) }
    { run_side_by_side(rt, alloc, store, others, passes, workers, gate, gathered) };
    let (last, gathered) = join(rt, last, before);
    gathered.with(last)
}
