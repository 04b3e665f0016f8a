// The following of an input over a store in memory, and what crashes of its disk leave. Roots are by Python's `hashlib`.
use jf_disk::{Disk, MemDisk};
use jf_engine::Engine;
use jf_engine_play::roots::{EMPTY, OF_A};
use jf_engine_play::stores::{disk_in, image_of, store_on};
use jf_follow::{Followed, FollowedInput, follow_stream};
use jf_hash::Hash;
use jf_io::{MemSink, MemSource};
use jf_join::{FreeGate, Workers};
use jf_path::Bytes;
use std::alloc::Global;
use std::test::Fail;
use std::thread::Threads;

/// Three landings: `1` and then `2` at the key of `a`, and `3` at that of `b`.
pub(crate) const THREE: &str =
    "landing 1 9bb72c39f13d2b512ea34eae99a28f6d807a134ab125e89172310c6f6ea72f8f 1\n\
    put 19d5f57c8e8b3cd760f853bb8d7900d68e10ef02674383de65a9b4d65e419b26 =31\n\
    landing 2 aa5647fd223dff48afb95db3b4b4b9db25f6244f59b3f1f7a0b03684552cb9ad 1\n\
    put 19d5f57c8e8b3cd760f853bb8d7900d68e10ef02674383de65a9b4d65e419b26 =32\n\
    landing 3 eefcf9b105d7d02e5a1d9bff2664e0ca9b96376d452f31b6091710fa35852ef1 1\n\
    put 6fe4ff1a836fcb881bbe03ff848bb731a5584708153d9bc6dc1d6430579a6a12 =33\n";

/// What tells of them.
pub(crate) const THREE_TOLD: &str =
    "followed 3 eefcf9b105d7d02e5a1d9bff2664e0ca9b96376d452f31b6091710fa35852ef1\n";

// The roots of versions 0 to 3.
const ROOTS: &[Hash] = &[
    EMPTY,
    OF_A,
    [
        170, 86, 71, 253, 34, 61, 255, 72, 175, 185, 93, 179, 180, 180, 185, 219, 37, 246, 36, 79,
        89, 179, 241, 247, 160, 176, 54, 132, 85, 44, 185, 173,
    ],
    [
        238, 252, 249, 177, 5, 215, 208, 46, 90, 29, 155, 255, 38, 100, 224, 202, 155, 150, 55,
        109, 69, 47, 49, 182, 9, 23, 16, 250, 53, 133, 46, 241,
    ],
];

// How many unsynced bytes a crash keeps, and the byte that all others become.
const CRASHES: &[(u64, u8)] = &[(0, 0), (0, 1), (17, 0xff), (1 << 62, 0)];

/// A source: its bytes, how many it gives a call, and the calls that fail.
pub(crate) type Input = (&'static str, usize, &'static [u64]);

/// The result of an input: the store, how it ended, how many landings were made, and whether the text is the one expected.
#[derive(Drop)]
pub(crate) struct Came {
    pub(crate) engine: Box<Engine<MemDisk>>,
    pub(crate) how: Followed,
    pub(crate) landings: u64,
    pub(crate) is_as_expected: bool,
}

/// Follows an input over a store.
pub(crate) fn follow<H: Threads + Sync>(
    rt: &H,
    alloc: Global,
    store: Box<Engine<MemDisk>>,
    input: &Input,
    text: &str,
) -> Result<Came, Fail> {
    let bytes = Bytes::copy_of(alloc, input.0.as_bytes())?;
    let mut source = MemSource::new(bytes, input.1.max(1), input.2.to_vec(alloc)?);
    let mut sink = MemSink::new(alloc, 7, 1_000, Vec::new(alloc))?;
    let engine = Box::into_inner(store);
    if engine.is_broken() {
        return Err(Fail::new("broken"));
    }
    let FollowedInput {
        engine,
        entries,
        how,
    } = follow_stream(
        rt,
        alloc,
        engine,
        &mut source,
        &mut sink,
        Workers::ONE,
        &FreeGate,
    );
    Ok(Came {
        engine: Box::new(alloc, engine)?,
        how,
        landings: entries.len(),
        is_as_expected: sink.text() == text.as_bytes(),
    })
}

// Whether a store has the first versions, from 0 to its head, each with its root, and at least so many.
fn is_front(engine: &Engine<MemDisk>, least: u64) -> bool {
    let head = engine.state().head;
    if head < least || head >= ROOTS.len() as u64 {
        return false;
    }
    for (version, root) in ROOTS.iter().enumerate() {
        let version = version as u64;
        if version <= head && engine.root_of(version) != Some(*root) {
            return false;
        }
    }
    true
}

/// Whether each crash just after so many calls leaves the first versions, at least so many.
pub(crate) fn leaves_front<H: Threads + Sync>(
    rt: &H,
    alloc: Global,
    disk: &MemDisk,
    moment: u64,
    least: u64,
) -> Result<bool, Fail> {
    for crash in CRASHES {
        let image = image_of(alloc, disk, moment, crash.0, crash.1)?;
        let engine = store_on(rt, alloc, image)?;
        if !is_front(&engine, least) {
            return Ok(false);
        }
    }
    Ok(true)
}

/// Whether a store has just so many versions after version 0, and keeps them over each crash.
pub(crate) fn has_landed<H: Threads + Sync>(
    rt: &H,
    alloc: Global,
    store: Box<Engine<MemDisk>>,
    landings: u64,
) -> Result<bool, Fail> {
    let is_head = store.state().head == landings && is_front(&store, landings);
    let disk = disk_in(alloc, store)?;
    let last = disk.moment();
    Ok(is_head && leaves_front(rt, alloc, &disk, last, landings)?)
}
