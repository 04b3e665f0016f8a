// A store in memory, and a client that has one root of it: the example of docs/CALLERS.md.
use jellyfish::{
    Batch, Engine, FreeGate, Hash, Key, MemDisk, OpenRefused, Proof, Workers, key_of, prove, verify,
};
use std::alloc::Global;
use std::test::Fail;
use std::thread::Threads;

// A store on a new disk in memory, with room for 100 calls and 10,000 bytes. A folder is `FileDisk::at(rt, alloc, name)`.
fn new_store<H: Threads + Sync>(rt: &H, alloc: Global) -> Result<Box<Engine<MemDisk>>, Fail> {
    let none = || Vec::new(alloc);
    let disk = MemDisk::new(alloc, none(), none(), 100, 10_000, Vec::new(alloc))?;
    match Engine::open(rt, alloc, disk, Workers::ONE) {
        Ok(store) => Ok(Box::new(alloc, store)?),
        Err(OpenRefused { disk: _, why }) => Err(why.into()),
    }
}

// Lands a put of one value as the next version, whose root it tells.
fn land_ten<H: Threads + Sync>(
    rt: &H,
    alloc: Global,
    store: &mut Engine<MemDisk>,
    key: &Key,
) -> Result<Hash, Fail> {
    let mut batch = Batch::new(alloc);
    batch.put(alloc, key, b"10")?;
    let landed = store.land(rt, alloc, &batch, Workers::ONE, &FreeGate)?;
    Ok(landed.root)
}

// Whether a version has this value under a key.
fn has_value(store: &Engine<MemDisk>, version: u64, key: &Key, value: &[u8]) -> bool {
    match store.at(version) {
        Some(snapshot) => snapshot.get(key) == Some(value),
        None => false,
    }
}

// What a client is sent beside a value: a proof of what a version says of a key.
fn proof_of(
    alloc: Global,
    store: &Engine<MemDisk>,
    version: u64,
    key: &Key,
) -> Result<Proof, Fail> {
    match store.at(version) {
        Some(snapshot) => Ok(prove(alloc, snapshot, key)?),
        None => Err(Fail::new("no such version")),
    }
}

#[test]
fn a_value_is_stored_and_proved(rt: HostRuntime) -> Result<(), Fail> {
    let alloc = rt.alloc();
    let mut store = new_store(&rt, alloc)?;
    let alice = key_of(b"alice");
    let root = land_ten(&rt, alloc, &mut store, &alice)?;
    let proof = proof_of(alloc, &store, 1, &alice)?;
    assert!(rt; has_value(&store, 1, &alice, b"10"));
    // The client has the root, and nothing else of the store.
    assert!(rt; verify(&root, &alice, Some(b"10"), &proof).is_ok());
    assert!(rt; verify(&root, &alice, Some(b"11"), &proof).is_err());
    Ok(())
}
