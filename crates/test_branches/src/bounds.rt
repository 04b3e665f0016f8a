// The bounds of forks: 1,024 live ones, and 10,000 keys that land together.
use jf_disk::MemDisk;
use jf_play::files::{CHECKPOINT, END, File, IMPORTED, file_bytes};
use jf_play::play::{answers, disk_of};
use jf_play::roots::with_roots;
use std::alloc::Global;
use std::sync::Wait;
use std::test::Fail;
use std::thread::Threads;

// The most live forks.
const FULL: u64 = 1_024;

// Where the forks of a script stand: all on the head, or each on the one before.
#[derive(Clone, Copy)]
enum Shape {
    Beside,
    Above,
}

// Appends the line that makes the fork of this number.
fn add_fork(alloc: Global, script: &mut Vec<u8>, shape: Shape, number: u64) -> Result<(), Fail> {
    match (shape, number.checked_sub(1)) {
        (Shape::Above, Some(below)) => {
            let line = format!(in alloc; "fork f{below}\n")?;
            script.extend_from_slice(line.as_bytes())?;
        }
        _ => script.extend_from_slice(b"fork head\n")?,
    }
    Ok(())
}

// The lines that make as many forks of nothing as may live, and then these.
fn forks_script(alloc: Global, shape: Shape, last: &str) -> Result<Vec<u8>, Fail> {
    let mut script = Vec::new(alloc);
    for number in 0..FULL {
        add_fork(alloc, &mut script, shape, number)?;
    }
    script.extend_from_slice(last.as_bytes())?;
    Ok(script)
}

// Appends the reply to the line that makes the fork of this number, the first entries of the run being forks.
fn add_forked(alloc: Global, text: &mut Vec<u8>, number: u64) -> Result<(), Fail> {
    let entries = number.saturating_add(1);
    let line = format!(in alloc; "{entries} ok fork f{number} E\n")?;
    text.extend_from_slice(&with_roots(alloc, line.as_str())?)?;
    Ok(())
}

// The replies to these lines, of which the last are given.
fn forks_replies(alloc: Global, last: &str) -> Result<Vec<u8>, Fail> {
    let mut text = Vec::new(alloc);
    for number in 0..FULL {
        add_forked(alloc, &mut text, number)?;
    }
    text.extend_from_slice(&with_roots(alloc, last)?)?;
    Ok(text)
}

// The last lines of a script after 1,024 forks, and their replies.
const FORKS: &[(Shape, &str, &str)] = &[
    (
        Shape::Beside,
        "fork head\n\
         fork f1024\n\
         fork f3\n\
         drop f3\n\
         fork f3\n\
         fork head\n\
         fork f3\n\
         fork f1025\n\
         fork f1024\n\
         status\n",
        "1024 no forksfull\n\
         1024 no unknown\n\
         1024 no forksfull\n\
         1025 ok drop 1\n\
         1025 no gone\n\
         1026 ok fork f1024 E\n\
         1026 no gone\n\
         1026 no unknown\n\
         1026 no forksfull\n\
         1026 ok status base 0 floor 0 retired 0 head 0 kept 1 forks 1024 generation 1\n",
    ),
    (
        Shape::Above,
        "fork f1023\n\
         root f1023\n\
         land f1023\n\
         status\n",
        "1024 no forksfull\n\
         1024 ok root E\n\
         1025 ok land 1024 E\n\
         1025 ok status base 0 floor 0 retired 0 head 1024 kept 1025 forks 0 generation 1\n",
    ),
    (
        Shape::Above,
        "drop f1\n\
         drop f0\n\
         status\n",
        "1025 ok drop 1023\n\
         1026 ok drop 1\n\
         1026 ok status base 0 floor 0 retired 0 head 0 kept 1 forks 0 generation 1\n",
    ),
];

#[test]
fn so_many_forks_live_and_no_more(rt: HostRuntime) -> Result<(), Fail> {
    let alloc = rt.alloc();
    for (shape, last, want) in FORKS {
        let script = forks_script(alloc, *shape, last)?;
        let want = forks_replies(alloc, want)?;
        let _ = answers(
            &rt,
            alloc,
            disk_of(alloc, b"", b"", &[])?,
            &script,
            0,
            &want,
        )?;
    }
    Ok(())
}

// Two forks, one on the other, that remove so many names each, the same ones; over which files, and the head that these have;
// and the last lines of the script with their replies. A name that isn't there can be removed: it is a key of the batch.
struct Chain {
    below: u64,
    above: u64,
    files: (File, File),
    head: u64,
    last: &'static str,
    want: &'static str,
}

const NONE: File = &[];

const CHAINS: &[Chain] = &[
    Chain {
        below: 7_000,
        above: 3_001,
        files: (NONE, NONE),
        head: 0,
        last: "land f1\nland f0\nland f1\n",
        want: "2 no keys 10001\n3 ok land 1 E\n4 ok land 2 E\n",
    },
    Chain {
        below: 7_000,
        above: 3_000,
        files: (NONE, NONE),
        head: 0,
        last: "land f1\n",
        want: "3 ok land 2 E\n",
    },
    // Over the last version the number of keys is looked at first.
    Chain {
        below: 7_000,
        above: 3_001,
        files: (&[CHECKPOINT, END], &[IMPORTED, END]),
        head: 18_446_744_073_709_551_614,
        last: "land f2\nland f1\nland f0\ncommit\n",
        want: "2 no unknown\n2 no keys 10001\n2 no last\n2 no last\n",
    },
];

// Appends the lines that remove so many names.
fn add_removals(alloc: Global, script: &mut Vec<u8>, names: u64) -> Result<(), Fail> {
    for name in 0..names {
        let line = format!(in alloc; "del {name:08}\n")?;
        script.extend_from_slice(line.as_bytes())?;
    }
    Ok(())
}

// Appends the replies to them, after this number of entries.
fn add_pending(alloc: Global, text: &mut Vec<u8>, entries: u64, names: u64) -> Result<(), Fail> {
    for pending in 1..=names {
        let line = format!(in alloc; "{entries} ok pending {pending}\n")?;
        text.extend_from_slice(line.as_bytes())?;
    }
    Ok(())
}

fn chain_script(alloc: Global, chain: &Chain) -> Result<Vec<u8>, Fail> {
    let mut script = Vec::new(alloc);
    add_removals(alloc, &mut script, chain.below)?;
    script.extend_from_slice(b"fork head\n")?;
    add_removals(alloc, &mut script, chain.above)?;
    script.extend_from_slice(b"fork f0\n")?;
    script.extend_from_slice(chain.last.as_bytes())?;
    Ok(script)
}

fn chain_replies(alloc: Global, chain: &Chain) -> Result<Vec<u8>, Fail> {
    let mut text = Vec::new(alloc);
    add_pending(alloc, &mut text, 0, chain.below)?;
    add_forked(alloc, &mut text, 0)?;
    add_pending(alloc, &mut text, 1, chain.above)?;
    add_forked(alloc, &mut text, 1)?;
    text.extend_from_slice(&with_roots(alloc, chain.want)?)?;
    Ok(text)
}

fn chain_disk(alloc: Global, chain: &Chain) -> Result<Box<MemDisk>, Fail> {
    let a = file_bytes(alloc, chain.files.0)?;
    let b = file_bytes(alloc, chain.files.1)?;
    disk_of(alloc, &a, &b, &[])
}

// Runs the script of a chain. Fails unless its replies are those.
fn is_chained<H: Threads + Wait + Sync>(rt: &H, alloc: Global, chain: &Chain) -> Result<(), Fail> {
    let script = chain_script(alloc, chain)?;
    let want = chain_replies(alloc, chain)?;
    let disk = chain_disk(alloc, chain)?;
    let _ = answers(rt, alloc, disk, &script, chain.head, &want)?;
    Ok(())
}

#[test]
fn so_many_keys_land_together_and_no_more(rt: HostRuntime) -> Result<(), Fail> {
    let alloc = rt.alloc();
    for chain in CHAINS {
        is_chained(&rt, alloc, chain)?;
    }
    Ok(())
}
