// Stores that are copied: the chunks of one store, as a run writes them, restored into another. The roots are from Python's
// `hashlib`.
use jf_disk::MemDisk;
use jf_play::play::{NO_FAULTS, answers, new_disk, play, play_line};
use std::alloc::Global;
use std::sync::Wait;
use std::test::Fail;
use std::thread::Threads;

// A map of this many names of two bytes, whose hexadecimal digits are 0000, 0001 and so on, each with a value of so many
// bytes 31; its root; and chunks of it that follow one another.
struct Large {
    names: u64,
    bytes: usize,
    root: &'static str,
    chunks: &'static [u8],
}

// The lines of the longest values are longer than the pieces in which an input is taken.
const MAPS: &[Large] = &[
    Large {
        names: 300,
        bytes: 1,
        root: "3f6753bb1c57cd5bed267d0521a10517b3ddbb1f0c3da65446adba324d71a79a",
        chunks: b"chunk v1 0 100\nchunk v1 100 199\nchunk v1 299 1\n",
    },
    Large {
        names: 3,
        bytes: 4096,
        root: "2521a3e59911d6faf06e13a7ed5881e8ade3689d0ac8fb6b423bab1d2336f9e8",
        chunks: b"chunk v1 0 2\nchunk v1 2 1\n",
    },
];

// Appends a `put` of a value of this many bytes.
fn add_put(alloc: Global, script: &mut Vec<u8>, number: u64, bytes: usize) -> Result<(), Fail> {
    let line = format!(in alloc; "put {number:04} =")?;
    script.extend_from_slice(line.as_bytes())?;
    for _ in 0..bytes {
        script.extend_from_slice(b"31")?;
    }
    script.push(b'\n')?;
    Ok(())
}

// The script that puts these names.
fn script_of(alloc: Global, large: &Large) -> Result<Vec<u8>, Fail> {
    let mut script = Vec::new(alloc);
    for number in 0..large.names {
        add_put(alloc, &mut script, number, large.bytes)?;
    }
    script.extend_from_slice(b"commit\n")?;
    Ok(script)
}

// A store with these names.
fn store_of<H: Threads + Wait + Sync>(
    rt: &H,
    alloc: Global,
    large: &Large,
) -> Result<Box<MemDisk>, Fail> {
    let script = script_of(alloc, large)?;
    let disk = new_disk(alloc, b"", &[])?;
    Ok(play(rt, alloc, disk, "run", &script, NO_FAULTS)?.disk)
}

// Its chunks.
fn chunks_of<H: Threads + Wait + Sync>(
    rt: &H,
    alloc: Global,
    large: &Large,
) -> Result<Vec<u8>, Fail> {
    let disk = store_of(rt, alloc, large)?;
    Ok(play(rt, alloc, disk, "run", large.chunks, NO_FAULTS)?.text)
}

// A new store into which they are restored.
fn copy_of<H: Threads + Wait + Sync>(
    rt: &H,
    alloc: Global,
    large: &Large,
) -> Result<Box<MemDisk>, Fail> {
    let chunks = chunks_of(rt, alloc, large)?;
    let line = format!(in alloc; "restore 1 {}", large.root)?;
    let disk = new_disk(alloc, b"", &[])?;
    Ok(play_line(rt, alloc, disk, line.as_str(), &chunks, NO_FAULTS)?.disk)
}

// Fails unless the copy has this root and so many entries.
fn is_copied<H: Threads + Wait + Sync>(rt: &H, alloc: Global, large: &Large) -> Result<(), Fail> {
    let copy = copy_of(rt, alloc, large)?;
    let want = format!(in alloc; "0 ok root {}\n0 ok count {}\n", large.root, large.names)?;
    let _ = answers(
        rt,
        alloc,
        copy,
        b"root head\ncount head\n",
        1,
        want.as_bytes(),
    )?;
    Ok(())
}

#[test]
fn the_chunks_of_a_store_restore_it(rt: HostRuntime) -> Result<(), Fail> {
    for large in MAPS {
        is_copied(&rt, rt.alloc(), large)?;
    }
    Ok(())
}
