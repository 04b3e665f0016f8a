// Lists of words for the modes that take a number, a root or a name, for `trim` and for `check`: what they ask for, and how their runs
// over an empty disk and an empty input end.
use crate::words::{end_of, line_touches_nothing};
use jf_hash::Hash;
use jf_join::Workers;
use jf_play::play::words_of;
use jf_run::status::Status;
use jf_words::{Mode, asks_check, mode_of};
use std::alloc::Global;
use std::sync::Wait;
use std::test::Fail;
use std::thread::Threads;

// The root in all rows.
const ROOT: Hash = [0x5f; 32];

// What words ask for; the last number of three modes is that of the workers.
#[derive(Clone, Copy)]
enum Asked {
    Nothing,
    Resume(u64, u64),
    Generate(u64, u64, u64, u64),
    Restore(u64, u64),
    Trim,
    Check,
    History(u64),
    Many(u64),
    // The name is `a`.
    Judge,
}

const ROWS: &[(&str, Asked)] = &[
    (
        "resume 1 5f5f5f5f5f5f5f5f5f5f5f5f5f5f5f5f5f5f5f5f5f5f5f5f5f5f5f5f5f5f5f5f",
        Asked::Resume(1, 4),
    ),
    (
        "resume 18446744073709551615 5f5f5f5f5f5f5f5f5f5f5f5f5f5f5f5f5f5f5f5f5f5f5f5f5f5f5f5f5f5f5f5f --workers 7",
        Asked::Resume(18446744073709551615, 7),
    ),
    (
        "resume --workers=7 -- 1 5f5f5f5f5f5f5f5f5f5f5f5f5f5f5f5f5f5f5f5f5f5f5f5f5f5f5f5f5f5f5f5f",
        Asked::Resume(1, 7),
    ),
    (
        "resume 1 5f5f5f5f5f5f5f5f5f5f5f5f5f5f5f5f5f5f5f5f5f5f5f5f5f5f5f5f5f5f5f5f --workers 65",
        Asked::Nothing,
    ),
    ("generate 1 2 3", Asked::Generate(1, 2, 3, 4)),
    ("generate 1 2 3 --workers 7", Asked::Generate(1, 2, 3, 7)),
    ("generate --workers=7 1 2 3", Asked::Generate(1, 2, 3, 7)),
    ("generate --workers 7 -- 1 2 3", Asked::Generate(1, 2, 3, 7)),
    ("generate 1 2 3 4", Asked::Nothing),
    (
        "restore 1 5f5f5f5f5f5f5f5f5f5f5f5f5f5f5f5f5f5f5f5f5f5f5f5f5f5f5f5f5f5f5f5f",
        Asked::Restore(1, 4),
    ),
    (
        "restore -- 18446744073709551614 5f5f5f5f5f5f5f5f5f5f5f5f5f5f5f5f5f5f5f5f5f5f5f5f5f5f5f5f5f5f5f5f",
        Asked::Restore(18446744073709551614, 4),
    ),
    (
        "restore 5f5f5f5f5f5f5f5f5f5f5f5f5f5f5f5f5f5f5f5f5f5f5f5f5f5f5f5f5f5f5f5f 1",
        Asked::Nothing,
    ),
    ("trim", Asked::Trim),
    ("trim --", Asked::Trim),
    ("trim b", Asked::Nothing),
    ("trim -- b", Asked::Nothing),
    ("trim -- --", Asked::Nothing),
    ("trim ", Asked::Nothing),
    ("trim --workers 7", Asked::Nothing),
    ("trim --workers=7", Asked::Nothing),
    ("Trim", Asked::Nothing),
    ("check", Asked::Check),
    ("check --", Asked::Check),
    ("check 1", Asked::Nothing),
    ("check -- 1", Asked::Nothing),
    ("check -- --", Asked::Nothing),
    ("check ", Asked::Nothing),
    ("check --workers 2", Asked::Nothing),
    ("check --workers=2", Asked::Nothing),
    ("Check", Asked::Nothing),
    ("history 0", Asked::History(0)),
    ("history 1", Asked::History(1)),
    ("history -- 1", Asked::History(1)),
    ("history", Asked::Nothing),
    ("history 01", Asked::Nothing),
    ("history v1", Asked::Nothing),
    ("history 1 1", Asked::Nothing),
    ("history 18446744073709551616", Asked::Nothing),
    ("history 1 --workers 7", Asked::Nothing),
    ("many 0", Asked::Many(0)),
    ("many 1", Asked::Many(1)),
    ("many -- 1", Asked::Many(1)),
    ("many", Asked::Nothing),
    ("many v1", Asked::Nothing),
    ("many 1 61", Asked::Nothing),
    ("many --workers=7 1", Asked::Nothing),
    (
        "judge 5f5f5f5f5f5f5f5f5f5f5f5f5f5f5f5f5f5f5f5f5f5f5f5f5f5f5f5f5f5f5f5f 61",
        Asked::Judge,
    ),
    (
        "judge -- 5f5f5f5f5f5f5f5f5f5f5f5f5f5f5f5f5f5f5f5f5f5f5f5f5f5f5f5f5f5f5f5f 61",
        Asked::Judge,
    ),
    (
        "judge 5f5f5f5f5f5f5f5f5f5f5f5f5f5f5f5f5f5f5f5f5f5f5f5f5f5f5f5f5f5f5f5f",
        Asked::Nothing,
    ),
    (
        "judge 61 5f5f5f5f5f5f5f5f5f5f5f5f5f5f5f5f5f5f5f5f5f5f5f5f5f5f5f5f5f5f5f5f",
        Asked::Nothing,
    ),
    (
        "judge 5f5f5f5f5f5f5f5f5f5f5f5f5f5f5f5f5f5f5f5f5f5f5f5f5f5f5f5f5f5f5f5f 6",
        Asked::Nothing,
    ),
    (
        "judge 5f5f5f5f5f5f5f5f5f5f5f5f5f5f5f5f5f5f5f5f5f5f5f5f5f5f5f5f5f5f5f5f 61 62",
        Asked::Nothing,
    ),
    (
        "judge 5f5f5f5f5f5f5f5f5f5f5f5f5f5f5f5f5f5f5f5f5f5f5f5f5f5f5f5f5f5f5f5f 61 --workers 7",
        Asked::Nothing,
    ),
];

// Whether this is the root of the rows, and so many workers.
fn has_root(root: &Hash, found: Workers, workers: u64) -> bool {
    *root == ROOT && Workers::new(workers) == Some(found)
}

// Whether a mode is what a row asks for.
fn is_asked(mode: &Mode, asked: &Asked) -> bool {
    match (mode, asked) {
        (
            Mode::Resume {
                version,
                root,
                workers,
            },
            Asked::Resume(number, count),
        ) => version == number && has_root(root, *workers, *count),
        (
            Mode::Generate {
                seed,
                batches,
                size,
                workers,
            },
            Asked::Generate(first, second, third, count),
        ) => {
            let same = seed == first && batches == second && size == third;
            same && Workers::new(*count) == Some(*workers)
        }
        (
            Mode::Restore {
                version,
                root,
                workers,
            },
            Asked::Restore(number, count),
        ) => version == number && has_root(root, *workers, *count),
        (Mode::Trim, Asked::Trim) => true,
        (Mode::Check, Asked::Check) => true,
        (Mode::History { version }, Asked::History(number)) => version == number,
        (Mode::Many { version }, Asked::Many(number)) => version == number,
        (Mode::Judge { root, name }, Asked::Judge) => *root == ROOT
            && name.as_slice() == b"a".as_slice(),
        _ => false,
    }
}

// Whether words ask for this, or for nothing.
fn are_asked(found: &Option<Mode>, asked: &Asked) -> bool {
    match (found, asked) {
        (None, Asked::Nothing) => true,
        (Some(mode), asked) => is_asked(mode, asked),
        _ => false,
    }
}

// Whether a run over an empty disk and an empty input ends as what was asked for does.
fn is_end(status: Status, asked: &Asked) -> bool {
    match asked {
        Asked::Nothing => status == Status::Usage,
        Asked::Generate(..) | Asked::Trim | Asked::Check | Asked::History(0) | Asked::Many(0) => {
            status == Status::Done
        }
        Asked::History(_) | Asked::Many(_) => status == Status::Outside { least: 0, head: 0 },
        Asked::Resume(..) => matches!(status, Status::Elsewhere { head: 0, .. }),
        Asked::Restore(..) => matches!(status, Status::Refused(_)),
        Asked::Judge => matches!(status, Status::NotShown(_)),
    }
}

// Whether the words of a row ask for what it says, and their run ends so.
fn is_taken<H: Threads + Wait + Sync>(
    rt: &H,
    alloc: Global,
    row: &(&str, Asked),
) -> Result<bool, Fail> {
    let words = words_of(alloc, row.0)?;
    let found = mode_of(alloc, &words)?;
    let is_check = asks_check(alloc, &words)? == matches!(row.1, Asked::Check);
    Ok(is_check && are_asked(&found, &row.1) && is_end(end_of(rt, alloc, &words)?, &row.1))
}

#[test]
fn takes_these_words_of_other_modes(rt: HostRuntime) -> Result<(), Fail> {
    for row in ROWS {
        assert!(rt; is_taken(&rt, rt.alloc(), row)?, "of {}", row.0);
    }
    Ok(())
}

// Whether wrong words touch something.
fn touches<H: Threads + Wait + Sync>(
    rt: &H,
    alloc: Global,
    row: &(&str, Asked),
) -> Result<bool, Fail> {
    match row.1 {
        Asked::Nothing => Ok(!line_touches_nothing(rt, alloc, row.0)?),
        _ => Ok(false),
    }
}

#[test]
fn wrong_words_of_other_modes_touch_nothing(rt: HostRuntime) -> Result<(), Fail> {
    for row in ROWS {
        assert!(rt; !touches(&rt, rt.alloc(), row)?, "of {}", row.0);
    }
    Ok(())
}
