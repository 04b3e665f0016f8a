// Chunks of the head and of old versions, by values from Python's hashlib, and chunks of larger maps that are read
// again.
use jf_blocks::{FirstLine, first_line};
use jf_path::{Bytes, Memory};
use jf_play::play::{NO_FAULTS, is_answered, new_disk, play};
use jf_receive::{Blocks, Restore};
use jf_text::write_hex;
use std::alloc::Global;
use std::sync::Wait;
use std::test::Fail;
use std::thread::Threads;

// Maps of no entry; of one, and of one more in the next version; of two whose keys agree in one bit; of six, of which
// two agree in the first nibble; of two that agree in three nibbles; and lines that are refused.
const ROWS: &[(&str, &str)] = &[
    ("chunk head 0 1\n", "0 no range 0\n"),
    (
        "put 61 =31\n\
         commit\n\
         put 62 =32\n\
         commit\n\
         chunk v1 0 1000\n\
         chunk v1 1 1\n\
         chunk v0 0 1\n\
         chunk v3 0 1\n\
         chunk v3 9 1\n",
        "0 ok pending 1\n\
         1 ok commit 1 9bb72c39f13d2b512ea34eae99a28f6d807a134ab125e89172310c6f6ea72f8f\n\
         1 ok pending 1\n\
         2 ok commit 2 3e92b77a6f4a7dcc426f134b3415f3af7eb39e5c8ac7599c94f5a3c83fe07425\n\
         2 ok chunk 1 0 0\n\
         entry 19d5f57c8e8b3cd760f853bb8d7900d68e10ef02674383de65a9b4d65e419b26 =31\n\
         2 no range 1\n\
         2 no range 0\n\
         2 no future 2\n\
         2 no future 2\n",
    ),
    (
        "put 61 =31\n\
         put 62 =32\n\
         commit\n\
         chunk v1 0 1\n\
         chunk v1 1 1\n\
         chunk head 0 1000\n\
         chunk v1 2 1\n\
         chunk v1 18446744073709551615 1\n",
        "0 ok pending 1\n\
         0 ok pending 2\n\
         1 ok commit 1 3e92b77a6f4a7dcc426f134b3415f3af7eb39e5c8ac7599c94f5a3c83fe07425\n\
         1 ok chunk 1 2 2\n\
         entry 19d5f57c8e8b3cd760f853bb8d7900d68e10ef02674383de65a9b4d65e419b26 =31\n\
         side 523314ab33c912d434792b42083d03c32d7e90b536b35c355a01ad0bb7925da2\n\
         side 6e340b9cffb37a989ca544e6bb780a2c78901d3fb33738768511a30617afa01d\n\
         1 ok chunk 1 2 1\n\
         entry 6fe4ff1a836fcb881bbe03ff848bb731a5584708153d9bc6dc1d6430579a6a12 =32\n\
         side 6e340b9cffb37a989ca544e6bb780a2c78901d3fb33738768511a30617afa01d\n\
         1 ok chunk 2 2 1\n\
         entry 19d5f57c8e8b3cd760f853bb8d7900d68e10ef02674383de65a9b4d65e419b26 =31\n\
         entry 6fe4ff1a836fcb881bbe03ff848bb731a5584708153d9bc6dc1d6430579a6a12 =32\n\
         side 6e340b9cffb37a989ca544e6bb780a2c78901d3fb33738768511a30617afa01d\n\
         1 no range 2\n\
         1 no range 2\n",
    ),
    (
        "put 61 =31\n\
         put 62 =31\n\
         put 63 =31\n\
         put 64 =31\n\
         put 65 =31\n\
         put 66 =31\n\
         commit\n\
         chunk head 0 2\n\
         chunk head 2 2\n\
         chunk head 4 2\n",
        "0 ok pending 1\n\
         0 ok pending 2\n\
         0 ok pending 3\n\
         0 ok pending 4\n\
         0 ok pending 5\n\
         0 ok pending 6\n\
         1 ok commit 1 6c9ccb50129259c61b0292b566b5a6c2a3a9e4df2b046bfe879e14741b47e853\n\
         1 ok chunk 2 5 4\n\
         entry 015cbd08524dfe93e53e4947992eda31976b55b2358d4515eaee3cf98a0f07f3 =31\n\
         entry 0e6ae2f9626ebbd0e0e1fdc6c7dce6c358993bab33a5ffbd09ddd107f7704ad5 =31\n\
         side 9bb72c39f13d2b512ea34eae99a28f6d807a134ab125e89172310c6f6ea72f8f\n\
         side 6e340b9cffb37a989ca544e6bb780a2c78901d3fb33738768511a30617afa01d\n\
         side e4b3d05618b1fff6b104f8ffbd03c6962676ef69489d07c2ab09bbb48e13e90f\n\
         side f57649c4fe8b214f152db04a20361337d5d3ea54f6154a20d0bb6f04e7f96ef9\n\
         1 ok chunk 2 2 1\n\
         entry 19d5f57c8e8b3cd760f853bb8d7900d68e10ef02674383de65a9b4d65e419b26 =31\n\
         entry 6fe4ff1a836fcb881bbe03ff848bb731a5584708153d9bc6dc1d6430579a6a12 =31\n\
         side f57649c4fe8b214f152db04a20361337d5d3ea54f6154a20d0bb6f04e7f96ef9\n\
         1 ok chunk 2 3 0\n\
         entry c7366da1307f33b7b9361dbd9b0988cf19b0cf4857db81c32d832f656dc5022a =31\n\
         entry eae14b1bf39b39adc8946cba6356a8578a75c0a6c211ef84d3e27a0ee4c97151 =31\n",
    ),
    (
        "put 6e =31\n\
         put 76 =\n\
         commit\n\
         chunk v1 0 1\n\
         chunk v1 1 5\n",
        "0 ok pending 1\n\
         0 ok pending 2\n\
         1 ok commit 1 a38a76d58cfe0339a130e620849dc62e2387414e25094892d5c620e748ef1fdd\n\
         1 ok chunk 1 13 4\n\
         entry edb5f4438fc835572e6cc4f7710f9f8133fc9dea86991a89978c7f90d9f380d4 =\n\
         side 5c4c705f3ca0c485e7949ac577648f55fe813d9f90d02a7f185c7346a9e69949\n\
         side 6e340b9cffb37a989ca544e6bb780a2c78901d3fb33738768511a30617afa01d\n\
         side 6e340b9cffb37a989ca544e6bb780a2c78901d3fb33738768511a30617afa01d\n\
         side 6e340b9cffb37a989ca544e6bb780a2c78901d3fb33738768511a30617afa01d\n\
         1 ok chunk 1 13 3\n\
         entry edbe2161d15c37828fe6a666683285ea6bd3c52f51ab9f32e8e4cde560fa35fe =31\n\
         side 6e340b9cffb37a989ca544e6bb780a2c78901d3fb33738768511a30617afa01d\n\
         side 6e340b9cffb37a989ca544e6bb780a2c78901d3fb33738768511a30617afa01d\n\
         side 6e340b9cffb37a989ca544e6bb780a2c78901d3fb33738768511a30617afa01d\n",
    ),
    (
        "chunk head 0 0\n\
         chunk head 0 1001\n\
         chunk head 00 1\n\
         chunk f0 0 1\n\
         chunk p0 0 1\n\
         chunk head 0\n",
        "0 no syntax\n\
         0 no syntax\n\
         0 no syntax\n\
         0 no syntax\n\
         0 no nopin\n\
         0 no syntax\n",
    ),
];

#[test]
fn entries_are_given_from_a_place_on(rt: HostRuntime) -> Result<(), Fail> {
    let alloc = rt.alloc();
    for (script, want) in ROWS {
        is_answered(&rt, alloc, script.as_bytes(), want.as_bytes())?;
    }
    Ok(())
}

// Puts this many names, commits, and asks for the root and then for these chunks.
fn script_of(alloc: Global, names: u16, chunks: &str) -> Result<Bytes, Memory> {
    let mut script = Bytes::new(alloc);
    for name in 0..names {
        write_hex(b"put ", &name.to_be_bytes(), &mut script)?;
        script.append(b" =31\n")?;
    }
    script.append(b"commit\nroot v1\n")?;
    script.append(chunks.as_bytes())?;
    Ok(script)
}

// What a run writes.
fn written_text<H: Threads + Wait + Sync>(
    rt: &H,
    alloc: Global,
    names: u16,
    chunks: &str,
) -> Result<Vec<u8>, Fail> {
    let script = script_of(alloc, names, chunks)?;
    let disk = new_disk(alloc, b"", &[])?;
    Ok(play(rt, alloc, disk, "run", script.as_slice(), NO_FAULTS)?.text)
}

// Reads one line: the first sets the root by which all lines after it are read as chunk blocks.
fn read_line(alloc: Global, blocks: &mut Option<Blocks>, line: &[u8]) -> bool {
    if let Some(blocks) = blocks {
        return blocks.line(line).is_ok();
    }
    if let Some(FirstLine::Root(root)) = first_line(line) {
        *blocks = Some(Blocks::new(alloc, Restore::new(alloc, 1, root)));
    }
    true
}

// The blocks after the line of a root, or `None` if a line is refused.
fn blocks_read(alloc: Global, text: &[u8]) -> Option<Blocks> {
    let mut blocks = None;
    for line in text.split(|byte| *byte == b'\n') {
        if !line.is_empty() && !read_line(alloc, &mut blocks, line) {
            return None;
        }
    }
    blocks
}

// Whether the replies are read as whole blocks, with this number of entries and the announced root.
fn is_whole(alloc: Global, text: &[u8], count: u64) -> bool {
    match blocks_read(alloc, text) {
        Some(blocks) => blocks
            .end()
            .is_ok_and(|restore| restore.whole() == Ok(count)),
        None => false,
    }
}

// How many names are put, and which chunks are asked for.
const LARGE: &[(u16, &str)] = &[
    (300, "chunk v1 0 100\nchunk v1 100 199\nchunk v1 299 1\n"),
    (1000, "chunk head 0 1000\n"),
];

#[test]
fn chunks_of_a_run_are_read_again(rt: HostRuntime) -> Result<(), Fail> {
    let alloc = rt.alloc();
    for (names, chunks) in LARGE {
        let text = written_text(&rt, alloc, *names, chunks)?;
        assert!(rt; is_whole(alloc, &text, u64::from(*names)), "of {names}");
    }
    Ok(())
}
