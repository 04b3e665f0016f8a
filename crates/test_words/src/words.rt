// Lists of words: what they ask for, how their runs end, and that wrong words touch nothing.
use jf_disk::{Disk, MemDisk, Side};
use jf_join::Workers;
use jf_play::play::{
    Faults, NO_FAULTS, Played, disk_of, has_ended, new_disk, play_words, words_of,
};
use jf_run::status::Status;
use jf_words::{Mode, mode_of};
use std::alloc::Global;
use std::sync::Wait;
use std::test::Fail;
use std::thread::Threads;

// Lines of words, and the number of workers of the run that they ask for. `None`: they ask for no run.
const RUNS: &[(&str, Option<u64>)] = &[
    ("run", Some(4)),
    ("run --", Some(4)),
    ("run --workers=7", Some(7)),
    ("run --workers 7", Some(7)),
    ("run --workers 1", Some(1)),
    ("run --workers=64", Some(64)),
    ("run --workers 64", Some(64)),
    ("run --workers 2 --", Some(2)),
    ("run --workers=10 --", Some(10)),
    ("run --workers 0", None),
    ("run --workers=0", None),
    ("run --workers 65", None),
    ("run --workers=65", None),
    ("run --workers 07", None),
    ("run --workers=07", None),
    ("run --workers +7", None),
    ("run --workers -7", None),
    ("run --workers 7.", None),
    ("run --workers 0x7", None),
    ("run --workers 18446744073709551617", None),
    ("run --workers", None),
    ("run --workers=", None),
    ("run --workers ", None),
    ("run --workers --", None),
    ("run --workers --workers", None),
    ("run --workers 2 --workers 2", None),
    ("run --workers=2 --workers=2", None),
    ("run --workers=2 --workers 2", None),
    ("run -- --workers 2", None),
    ("run -- --workers=2", None),
    ("run -- --", None),
    ("run --workers 2 -- --", None),
    ("run -- x", None),
    ("run x", None),
    ("run --workers 2 x", None),
    ("run x --workers 2", None),
    ("run -w 2", None),
    ("run --work 2", None),
    ("run --help", None),
    ("run -h", None),
    ("--version", None),
    ("--workers 2 run", None),
    ("Run", None),
    ("walk", None),
    ("restore 1", None),
    (
        "restore 1 5f5f5f5f5f5f5f5f5f5f5f5f5f5f5f5f5f5f5f5f5f5f5f5f5f5f5f5f5f5f5f5f 5f5f5f5f5f5f5f5f5f5f5f5f5f5f5f5f5f5f5f5f5f5f5f5f5f5f5f5f5f5f5f5f",
        None,
    ),
    (
        "restore 18446744073709551615 5f5f5f5f5f5f5f5f5f5f5f5f5f5f5f5f5f5f5f5f5f5f5f5f5f5f5f5f5f5f5f5f",
        None,
    ),
    (
        "restore --workers 2 --workers 2 1 5f5f5f5f5f5f5f5f5f5f5f5f5f5f5f5f5f5f5f5f5f5f5f5f5f5f5f5f5f5f5f5f",
        None,
    ),
    ("resume", None),
    ("resume 1", None),
    (
        "resume 01 5f5f5f5f5f5f5f5f5f5f5f5f5f5f5f5f5f5f5f5f5f5f5f5f5f5f5f5f5f5f5f5f",
        None,
    ),
    (
        "resume 18446744073709551616 5f5f5f5f5f5f5f5f5f5f5f5f5f5f5f5f5f5f5f5f5f5f5f5f5f5f5f5f5f5f5f5f",
        None,
    ),
    (
        "resume 5f5f5f5f5f5f5f5f5f5f5f5f5f5f5f5f5f5f5f5f5f5f5f5f5f5f5f5f5f5f5f5f 1",
        None,
    ),
    (
        "resume 1 5f5f5f5f5f5f5f5f5f5f5f5f5f5f5f5f5f5f5f5f5f5f5f5f5f5f5f5f5f5f5f",
        None,
    ),
    (
        "resume 1 5f5f5f5f5f5f5f5f5f5f5f5f5f5f5f5f5f5f5f5f5f5f5f5f5f5f5f5f5f5f5f5f 1",
        None,
    ),
    ("generate 1 1", None),
    ("generate 01 1 1", None),
    ("generate 1 1001 1", None),
    ("generate 1 1 0", None),
    ("generate 1 1 10001", None),
];

// Lines of words, and the number of workers with which they ask for several sessions. `None`: they ask for nothing.
const SERVINGS: &[(&str, Option<u64>)] = &[
    ("serve", Some(4)),
    ("serve --", Some(4)),
    ("serve --workers 7", Some(7)),
    ("serve --workers=7 --", Some(7)),
    ("serve x", None),
    ("serve -- x", None),
    ("serve --workers 0", None),
    ("serve --workers 65", None),
    ("Serve", None),
];

// Lines of words, and the number of workers with which they ask for `lead`. `None`: they ask for nothing.
const LEADINGS: &[(&str, Option<u64>)] = &[
    ("lead", Some(4)),
    ("lead --", Some(4)),
    ("lead --workers 7", Some(7)),
    ("lead --workers=7 --", Some(7)),
    ("lead x", None),
    ("lead -- x", None),
    ("lead --workers 65", None),
    ("Lead", None),
];

// Lines of words, and the number of workers with which they ask for `follow`. `None`: they ask for nothing.
const FOLLOWINGS: &[(&str, Option<u64>)] = &[
    ("follow", Some(4)),
    ("follow --", Some(4)),
    ("follow --workers 7", Some(7)),
    ("follow --workers=7 --", Some(7)),
    ("follow x", None),
    ("follow 1", None),
    ("follow --workers 0", None),
    ("Follow", None),
];

// Lines of words, and whether they ask for `verify`.
const JUDGINGS: &[(&str, bool)] = &[
    ("verify", true),
    ("verify --", true),
    ("verify -- --", false),
    ("verify --workers 2", false),
    ("verify --workers=2", false),
    ("verify x", false),
    ("verify -- x", false),
    ("verify ", false),
    ("Verify", false),
];

// The status of a run of these words over an empty disk and an empty script.
pub(crate) fn end_of<H: Threads + Wait + Sync>(
    rt: &H,
    alloc: Global,
    words: &[String],
) -> Result<Status, Fail> {
    let disk = new_disk(alloc, b"", &[])?;
    Ok(play_words(rt, alloc, disk, words, b"", NO_FAULTS)?.status)
}

// The status of a run of words that ask for this mode.
fn status_of(mode: &Option<Mode>) -> Status {
    match mode {
        Some(_) => Status::Done,
        None => Status::Usage,
    }
}

// Whether two modes of these tables are the same.
fn is_same(one: &Mode, other: &Mode) -> bool {
    match (one, other) {
        (Mode::Run { workers }, Mode::Run { workers: others }) => workers == others,
        (Mode::Serve { workers }, Mode::Serve { workers: others }) => workers == others,
        (Mode::Lead { workers }, Mode::Lead { workers: others }) => workers == others,
        (Mode::Follow { workers }, Mode::Follow { workers: others }) => workers == others,
        (Mode::Verify, Mode::Verify) => true,
        _ => false,
    }
}

// Whether words ask for this mode, or for none.
fn is_asked(found: &Option<Mode>, mode: &Option<Mode>) -> bool {
    match (found, mode) {
        (Some(found), Some(mode)) => is_same(found, mode),
        (None, None) => true,
        _ => false,
    }
}

// Whether words ask for this mode, and their run ends with the status of this mode.
fn are_taken<H: Threads + Wait + Sync>(
    rt: &H,
    alloc: Global,
    words: &[String],
    mode: &Option<Mode>,
) -> Result<bool, Fail> {
    let found = mode_of(alloc, words)?;
    Ok(is_asked(&found, mode) && end_of(rt, alloc, words)? == status_of(mode))
}

// What `are_taken` says of the words of a line.
fn is_taken<H: Threads + Wait + Sync>(
    rt: &H,
    alloc: Global,
    line: &str,
    mode: Option<Mode>,
) -> Result<bool, Fail> {
    let words = words_of(alloc, line)?;
    are_taken(rt, alloc, &words, &mode)
}

// The mode of words that ask for a run with this number of workers, or for no mode.
fn run_by(workers: Option<u64>) -> Option<Mode> {
    let workers = Workers::new(workers?)?;
    Some(Mode::Run { workers })
}

#[test]
fn takes_these_lists_of_words_and_no_other(rt: HostRuntime) -> Result<(), Fail> {
    let alloc = rt.alloc();
    for (line, workers) in RUNS {
        assert!(rt; is_taken(&rt, alloc, line, run_by(*workers))?, "of {line}");
    }
    Ok(())
}

#[test]
fn takes_no_empty_list_of_words(rt: HostRuntime) -> Result<(), Fail> {
    assert!(rt; end_of(&rt, rt.alloc(), &[])? == Status::Usage);
    Ok(())
}

// The mode of words that ask for several sessions with this number of workers, or for no mode.
fn serve_by(workers: Option<u64>) -> Option<Mode> {
    let workers = Workers::new(workers?)?;
    Some(Mode::Serve { workers })
}

#[test]
fn takes_serve_as_it_takes_run(rt: HostRuntime) -> Result<(), Fail> {
    let alloc = rt.alloc();
    for (line, workers) in SERVINGS {
        assert!(rt;
            is_taken(&rt, alloc, line, serve_by(*workers))?,
            "of {line}"
        );
    }
    Ok(())
}

// The mode of words that ask for `lead` with this number of workers, or for no mode.
fn lead_by(workers: Option<u64>) -> Option<Mode> {
    let workers = Workers::new(workers?)?;
    Some(Mode::Lead { workers })
}

#[test]
fn takes_lead_as_it_takes_run(rt: HostRuntime) -> Result<(), Fail> {
    let alloc = rt.alloc();
    for (line, workers) in LEADINGS {
        assert!(rt; is_taken(&rt, alloc, line, lead_by(*workers))?, "of {line}");
    }
    Ok(())
}

// The mode of words that ask for `follow` with this number of workers, or for no mode.
fn follow_by(workers: Option<u64>) -> Option<Mode> {
    let workers = Workers::new(workers?)?;
    Some(Mode::Follow { workers })
}

#[test]
fn takes_follow_as_it_takes_run(rt: HostRuntime) -> Result<(), Fail> {
    let alloc = rt.alloc();
    for (line, workers) in FOLLOWINGS {
        assert!(rt;
            is_taken(&rt, alloc, line, follow_by(*workers))?,
            "of {line}"
        );
    }
    Ok(())
}

// The mode of words that ask for `verify`, or for no mode.
fn judging(judges: bool) -> Option<Mode> {
    if judges { Some(Mode::Verify) } else { None }
}

#[test]
fn takes_verify_alone(rt: HostRuntime) -> Result<(), Fail> {
    let alloc = rt.alloc();
    for (line, judges) in JUDGINGS {
        assert!(rt; is_taken(&rt, alloc, line, judging(*judges))?, "of {line}");
    }
    Ok(())
}

// The first call of the source and of the sink fails.
const FAILING: Faults = Faults {
    piece: 100,
    source: &[0],
    sink: &[0],
};

// The sides of a disk that no run may touch.
const A: &[u8] = b"\x01\x07\0";

const B: &[u8] = b"\x5a";

// Whether a disk had no call and no fault, and its sides are unchanged.
fn is_untouched(disk: &MemDisk) -> bool {
    let calm = disk.moment() == 0 && disk.faults() == 0;
    calm && disk.bytes(Side::A) == A && disk.bytes(Side::B) == B
}

// Whether a run of wrong words ended with `Usage`, nothing written, and no call of the disk.
fn is_refused(played: &Played<MemDisk>) -> bool {
    let ended = has_ended(played, Status::Usage, None, b"");
    ended && played.entries == 0 && is_untouched(&played.disk)
}

// Whether wrong words touch nothing: the disk is damaged, and the first calls of the source and the sink would fail.
fn touches_nothing<H: Threads + Wait + Sync>(
    rt: &H,
    alloc: Global,
    words: &[String],
) -> Result<bool, Fail> {
    let disk = disk_of(alloc, A, B, &[0])?;
    let played = play_words(rt, alloc, disk, words, b"put 61 =31\ncommit\n", FAILING)?;
    Ok(is_refused(&played))
}

// What `touches_nothing` says of the words of a line.
pub(crate) fn line_touches_nothing<H: Threads + Wait + Sync>(
    rt: &H,
    alloc: Global,
    line: &str,
) -> Result<bool, Fail> {
    let words = words_of(alloc, line)?;
    touches_nothing(rt, alloc, &words)
}

#[test]
fn wrong_words_touch_nothing(rt: HostRuntime) -> Result<(), Fail> {
    let alloc = rt.alloc();
    for (line, workers) in RUNS {
        let touched = workers.is_none() && !line_touches_nothing(&rt, alloc, line)?;
        assert!(rt; !touched, "of {line}");
    }
    Ok(())
}

#[test]
fn words_after_serve_touch_nothing(rt: HostRuntime) -> Result<(), Fail> {
    let alloc = rt.alloc();
    for (line, workers) in SERVINGS {
        let touched = workers.is_none() && !line_touches_nothing(&rt, alloc, line)?;
        assert!(rt; !touched, "of {line}");
    }
    Ok(())
}

#[test]
fn no_words_touch_nothing(rt: HostRuntime) -> Result<(), Fail> {
    assert!(rt; touches_nothing(&rt, rt.alloc(), &[])?);
    Ok(())
}

#[test]
fn words_after_verify_touch_nothing(rt: HostRuntime) -> Result<(), Fail> {
    let alloc = rt.alloc();
    for (line, judges) in JUDGINGS {
        let touched = !*judges && !line_touches_nothing(&rt, alloc, line)?;
        assert!(rt; !touched, "of {line}");
    }
    Ok(())
}
