// A stop at any moment leaves what was acknowledged by then.
use crate::images::{are_left, state_left};
use crate::one_fault::ALL;
use crate::script::{LAST, run_script, state_after};
use jf_play::images::CRASHES;
use jf_play::play::NO_FAULTS;
use std::alloc::Global;
use std::sync::Wait;
use std::test::Fail;
use std::thread::Threads;

// The state after so many entries, and the next one, if there is one.
fn states_from(entries: u64) -> (usize, usize) {
    let low = state_after(entries);
    (low, low.saturating_add(1).min(LAST))
}

// Fails unless each image after so many calls has the entries that were acknowledged by then, or one more: those of a run whose
// disk fails in the next call.
fn stop_after<H: Threads + Wait + Sync>(rt: &H, alloc: Global, calls: u64) -> Result<(), Fail> {
    let played = run_script(rt, alloc, &[calls], NO_FAULTS)?;
    let states = states_from(played.entries);
    are_left(rt, alloc, &played.disk, calls, CRASHES, states)
}

#[test]
fn a_stop_at_any_moment_leaves_what_was_acknowledged(rt: HostRuntime) -> Result<(), Fail> {
    for calls in 0..ALL + 1 {
        stop_after(&rt, rt.alloc(), calls)?;
    }
    Ok(())
}

// Fails unless a crash that keeps all bytes leaves each state at some moment of a run: the same as at the moment before, or the
// next.
fn states_follow<H: Threads + Wait + Sync>(rt: &H, alloc: Global) -> Result<(), Fail> {
    let played = run_script(rt, alloc, &[], NO_FAULTS)?;
    let mut last = 0;
    let mut follow = true;
    for moment in 0..ALL + 1 {
        let state = state_left(rt, alloc, &played.disk, moment, (1 << 62, 0x00))?;
        follow = follow && (state == last || state == last.saturating_add(1));
        last = state;
    }
    if follow && last == LAST {
        Ok(())
    } else {
        Err(Fail::new(last))
    }
}

#[test]
fn each_change_is_there_at_some_moment(rt: HostRuntime) -> Result<(), Fail> {
    states_follow(&rt, rt.alloc())
}
