// What the mode `generate` writes, and what it leaves in the files. The roots and the numbers of kept nodes are from plain
// maps, by a program outside: roots by the bits of keys, nodes as sets of a path and its entries.
use jf_disk::MemDisk;
use jf_play::play::{
    Faults, NO_FAULTS, NO_INPUT, Played, are_same, has_ended, play_line, roomy_disk,
};
use jf_run::status::Status;
use std::alloc::Global;
use std::sync::Wait;
use std::test::Fail;
use std::thread::Threads;

// Words that are run over a new store: how many entries they make, and what they write.
type Row = (&'static str, u64, &'static str);

const ROWS: &[Row] = &[
    (
        "generate 1 1 1",
        1,
        "refused 0\n\
         1 ok root 13201471d2abbc6bfd0479ef5a9fb337f40da1b8a8956ac886b54f9d1cca8031\n\
         1 ok status base 0 floor 0 retired 0 head 1 kept 2 forks 0 generation 1\n",
    ),
    (
        "generate 1 0 1",
        0,
        "refused 0\n\
         0 ok root 6e340b9cffb37a989ca544e6bb780a2c78901d3fb33738768511a30617afa01d\n\
         0 ok status base 0 floor 0 retired 0 head 0 kept 1 forks 0 generation 1\n",
    ),
    (
        "generate 18446744073709551615 3 4 --workers=2",
        3,
        "refused 0\n\
         3 ok root b42d447513f447d94f45674a09a54ed0c1e80254fa15fd3e53c8b79a94fc11df\n\
         3 ok status base 0 floor 0 retired 0 head 3 kept 23 forks 0 generation 1\n",
    ),
    (
        "generate 7 24 50",
        26,
        "refused 0\n\
         26 ok root d74f89f207ef1606485e05632e1f1f4ad6d7893f3ae171d029b5f624c739c9ca\n\
         26 ok status base 0 floor 15 retired 15 head 24 kept 1987 forks 0 generation 1\n",
    ),
    (
        "generate 7 50 50",
        57,
        "refused 0\n\
         57 ok root 8474e29fd6c51cc0e6732c32c0282012f3aa0b646e013df84b0f6306ac3b8374\n\
         57 ok status base 0 floor 45 retired 45 head 50 kept 3267 forks 0 generation 3\n",
    ),
];

// Whether words over a new store make these entries and write this.
fn is_generated<H: Threads + Wait + Sync>(rt: &H, alloc: Global, row: &Row) -> Result<bool, Fail> {
    let disk = roomy_disk(alloc)?;
    let played = play_line(rt, alloc, disk, row.0, b"", NO_INPUT)?;
    let ended = has_ended(&played, Status::Done, Some(0), row.2.as_bytes());
    Ok(ended && played.entries == row.1)
}

#[test]
fn scripts_are_generated_and_run(rt: HostRuntime) -> Result<(), Fail> {
    for row in ROWS {
        assert!(rt; is_generated(&rt, rt.alloc(), row)?, "of {}", row.0);
    }
    Ok(())
}

// Words that are run over a new store, then words that are run over what they left, with an input and its faults: the
// version at which the store is opened then, and what is written.
struct Later {
    first: &'static str,
    then: &'static str,
    input: &'static str,
    faults: Faults,
    head: u64,
    text: &'static str,
}

const RUNS: &[Later] = &[
    // What was generated stays.
    Later {
        first: "generate 3 2 2",
        then: "run",
        input: "root v1\nget v1 5327\nget v1 bc03\nget v2 bc03\nget head 1cfb\nstatus\n",
        faults: NO_FAULTS,
        head: 2,
        text: "0 ok root 403d6010e0202516597f0973ea03020947cf4525c12f2d734e4ceed1aa929d08\n\
               0 ok value =5327b7f7896976ed\n\
               0 ok none\n\
               0 ok value =bc03b48704e1fbf8\n\
               0 ok none\n\
               0 ok status base 0 floor 0 retired 0 head 2 kept 8 forks 0 generation 1\n",
    },
    // The same script again makes as many versions with the same root. Its first floor is retired by then: a refusal.
    Later {
        first: "generate 1 20 1",
        then: "generate 1 20 1",
        input: "",
        faults: NO_INPUT,
        head: 20,
        text: "refused 1\n\
               21 ok root 638d7eaa34cd3ccb5a243fb203e4a4f9b74565fb93b8e421197e0be66ffff1d8\n\
               21 ok status base 0 floor 15 retired 15 head 40 kept 54 forks 0 generation 1\n",
    },
];

// The disk that words over a new store leave.
fn left_by<H: Threads + Wait + Sync>(
    rt: &H,
    alloc: Global,
    line: &str,
) -> Result<Box<MemDisk>, Fail> {
    let disk = roomy_disk(alloc)?;
    Ok(play_line(rt, alloc, disk, line, b"", NO_INPUT)?.disk)
}

fn goes_on<H: Threads + Wait + Sync>(rt: &H, alloc: Global, later: &Later) -> Result<bool, Fail> {
    let disk = left_by(rt, alloc, later.first)?;
    let input = later.input.as_bytes();
    let played = play_line(rt, alloc, disk, later.then, input, later.faults)?;
    let text = later.text.as_bytes();
    Ok(has_ended(&played, Status::Done, Some(later.head), text))
}

#[test]
fn what_was_generated_is_gone_on_with(rt: HostRuntime) -> Result<(), Fail> {
    for later in RUNS {
        assert!(rt; goes_on(&rt, rt.alloc(), later)?, "of {}", later.first);
    }
    Ok(())
}

// A long script, run with this number of workers.
fn generated_by<H: Threads + Wait + Sync>(
    rt: &H,
    alloc: Global,
    workers: u64,
) -> Result<Played<MemDisk>, Fail> {
    let line = format!(in alloc; "generate 7 50 50 --workers {workers}")?;
    let disk = roomy_disk(alloc)?;
    play_line(rt, alloc, disk, line.as_str(), b"", NO_INPUT)
}

// Whether a run with this number of workers is the same as this one.
fn is_same<H: Threads + Wait + Sync>(
    rt: &H,
    alloc: Global,
    alone: &Played<MemDisk>,
    workers: u64,
) -> Result<bool, Fail> {
    let played = generated_by(rt, alloc, workers)?;
    Ok(are_same(alone, &played))
}

// Whether a run with this number of workers is the same as one with one.
fn change_nothing<H: Threads + Wait + Sync>(
    rt: &H,
    alloc: Global,
    workers: u64,
) -> Result<bool, Fail> {
    let alone = generated_by(rt, alloc, 1)?;
    is_same(rt, alloc, &alone, workers)
}

#[test]
fn no_number_of_workers_changes_what_is_generated(rt: HostRuntime) -> Result<(), Fail> {
    for workers in &[2, 7, 64] {
        assert!(rt;
            change_nothing(&rt, rt.alloc(), *workers)?,
            "{workers} workers"
        );
    }
    Ok(())
}
