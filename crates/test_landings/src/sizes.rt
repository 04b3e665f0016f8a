// How many bytes landings take. The lengths are worked out from the format by a program in Python: the gates, the kinds and
// lengths, and of each landing its version, its root, and the names and nodes that it has to write and to mark.
use jf_disk::{MemDisk, Side};
use jf_engine::Engine;
use jf_engine_play::stores::{Store, store_on, workers_of};
use jf_hash::key_of;
use jf_join::FreeGate;
use jf_split::{Batch, BatchFault};
use std::alloc::Global;
use std::test::Fail;
use std::thread::Threads;

// The keys of these numbers, from the first up to the second; the byte that is put at each, or `None` if they are removed;
// and the length of side A after that.
type Landing = (u32, u32, Option<u8>, usize);

// A thousand keys on no key, another value at one of them, one key more, and one key less.
const LANDINGS: &[Landing] = &[
    (0, 1_000, Some(b'v'), 120_045),
    (0, 1, Some(b'w'), 121_876),
    (1_000, 1_001, Some(b'v'), 123_744),
    (1, 2, None, 125_574),
];

fn batch_of(alloc: Global, landing: &Landing) -> Result<Batch, BatchFault> {
    let mut batch = Batch::new(alloc);
    for number in landing.0..landing.1 {
        let key = key_of(&number.to_be_bytes());
        match landing.2 {
            Some(byte) => batch.put(alloc, &key, &[byte])?,
            None => batch.del(alloc, &key)?,
        }
    }
    Ok(batch)
}

// A store on a new disk with room for all of the landings.
fn roomy_store<H: Threads + Sync>(rt: &H, alloc: Global) -> Result<Store, Fail> {
    let (a, b, failing) = (Vec::new(alloc), Vec::new(alloc), Vec::new(alloc));
    let disk = MemDisk::new(alloc, a, b, 100, 200_000, failing)?;
    store_on(rt, alloc, Box::new(alloc, disk)?)
}

fn takes_so_many<H: Threads + Sync>(
    rt: &H,
    alloc: Global,
    engine: &mut Engine<MemDisk>,
    landing: &Landing,
) -> Result<bool, Fail> {
    let batch = batch_of(alloc, landing)?;
    let _ = engine.land(rt, alloc, &batch, workers_of(4)?, &FreeGate)?;
    Ok(engine.disk().bytes(Side::A).len() == landing.3)
}

#[test]
fn a_landing_takes_no_more_bytes_than_its_nodes(rt: HostRuntime) -> Result<(), Fail> {
    let mut engine = roomy_store(&rt, rt.alloc())?;
    for landing in LANDINGS {
        assert!(rt;
            takes_so_many(&rt, rt.alloc(), &mut engine, landing)?,
            "{landing:?}"
        );
    }
    Ok(())
}
