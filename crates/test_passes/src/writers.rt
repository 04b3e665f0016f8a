// Two passes in two threads, which commit in turn and read back what they committed.
ghost use Rattle.std.specs.Prelude.{◌≡◌};
ghost use Rattle.std.specs.Thread.{IsSync};
ghost use Rattle.jf_store.specs.Passes.{IsPassOf};
ghost use Rattle.test_passes.specs.Scenes.{IsScene, StaysScene};

use crate::closing::{Run, goes_well};
use crate::scene::Scene;
use crate::steps::{first_at, put};
use crate::threads::side_by_side;
use jf_disk::MemDisk;
use jf_engine::{Engine, Landed};
use jf_model::{Entry, Landing};
use jf_node::Snapshot;
use jf_store::{Closed, Look, Pass, Store};
use jf_store_play::passes::{at, look};
use std::alloc::Global;
use std::sync::Wait;
use std::test::Fail;
use std::thread::Threads;

// How often each pass commits.
const WRITES: u8 = 100;

// The name at which the first pass puts, and that of the second.
const FIRST: u8 = b'a';

const SECOND: u8 = b'b';

// Whether a look finds this version, or a later one, with what the pass has put last.
fn goes_on_from(look: &Look, version: u64, name: u8, byte: u8) -> bool {
    look.head.version() == look.state.head
        && version <= look.state.head
        && look.head.version() <= look.seen
        && first_at(&look.head, name) == Some(byte)
}

// Whether a snapshot is what was landed, with what was put.
fn is_landed(snapshot: &Snapshot, landed: &Landed, name: u8, byte: u8) -> bool {
    let root = landed.root;
    snapshot.version() == landed.version
        && snapshot.root() == root
        && first_at(snapshot, name) == Some(byte)
}

// Commits and reads back what was committed: at the head, or below it, and by its number. Returns whether all is there.
fn put_and_look<H: Threads + Wait + Sync>(
    rt: &H,
    alloc: Global,
    store: &Store<MemDisk>,
    pass: &mut Pass<MemDisk>,
    name: u8,
    byte: u8,
) -> bool
    requires { IsPassOf pass.old store.now }
    ensures { IsPassOf pass.new store.now × (pass.new.number ≡ pass.old.number) }
{
    let Some(landed) = put(rt, alloc, store, pass, name, byte) else {
        return false;
    };
    let Ok(look) = look(rt, store, pass) else {
        return false;
    };
    let Ok(snapshot) = at(rt, store, pass, landed.version) else {
        return false;
    };
    goes_on_from(&look, landed.version, name, byte) && is_landed(&snapshot, &landed, name, byte)
}

// Commits and looks as often as each pass does. Returns whether all is there each time.
fn put_all<H: Threads + Wait + Sync>(
    rt: &H,
    alloc: Global,
    store: &Store<MemDisk>,
    pass: &mut Pass<MemDisk>,
    name: u8,
) -> bool
    requires { IsPassOf pass.old store.now }
    ensures { IsPassOf pass.new store.now × (pass.new.number ≡ pass.old.number) }
{
    let mut all = true;
    for byte in 0..WRITES {
        all = put_and_look(rt, alloc, store, pass, name, byte) && all;
    }
    all
}

// Whether both passes find all that they put, in two threads.
pub(crate) fn both_put<H: Threads + Wait + Sync>(rt: &H, alloc: Global, scene: &mut Scene) -> bool
    requires { IsScene scene.old }
    ensures { StaysScene scene.old scene.new }
{
    let one = |store: &Store<MemDisk>, pass: &mut Pass<MemDisk>| -> bool
        requires { IsSync H.row × IsPassOf pass.old store.now }
        ensures { IsPassOf pass.new store.now × (pass.new.number ≡ pass.old.number) }
    { put_all(rt, alloc, store, pass, FIRST) };
    let other = |store: &Store<MemDisk>, pass: &mut Pass<MemDisk>| -> bool
        requires { IsSync H.row × IsPassOf pass.old store.now }
        ensures { IsPassOf pass.new store.now × (pass.new.number ≡ pass.old.number) }
    { put_all(rt, alloc, store, pass, SECOND) };
    side_by_side(rt, scene.store, scene.first, scene.second, &one, &other)
}

// Who landed a version, and which one.
fn landing_of(entry: &Entry) -> Option<(u64, u64)> {
    match entry {
        Entry::Landed {
            owner,
            version,
            how: Landing::Direct(_),
            ..
        } => Some((*owner, *version)),
        _ => None,
    }
}

// The byte that a version of the store has at a name.
fn byte_at(engine: &Engine<MemDisk>, version: u64, name: u8) -> Option<u8> {
    first_at(engine.at(version)?, name)
}

// How many bytes an owner put at its name, one after another from 0 on, each in the version that it landed. `None` if they
// are out of order, or if the entries are not the versions from 1 on.
fn put_in_order(engine: &Engine<MemDisk>, entries: &[Entry], owner: u64, name: u8) -> Option<u8> {
    let mut last: u64 = 0;
    let mut next: u8 = 0;
    for entry in entries {
        let (by, version) = landing_of(entry)?;
        last = last.wrapping_add(1);
        if version != last {
            return None;
        }
        if by == owner {
            if byte_at(engine, version, name) != Some(next) {
                return None;
            }
            next = next.wrapping_add(1);
        }
    }
    Some(next)
}

// Whether all was put by both, each in its order.
pub(crate) fn are_all_put(closed: &Closed<MemDisk>) -> bool {
    let entries = closed.entries.as_slice();
    let engine = &closed.engine;
    entries.len() as u64 == 2 * WRITES as u64
        && engine.state().head == 2 * WRITES as u64
        && put_in_order(engine, entries, 0, FIRST) == Some(WRITES)
        && put_in_order(engine, entries, 1, SECOND) == Some(WRITES)
}

#[test]
fn two_writers_read_back(rt: HostRuntime) -> Result<(), Fail> {
    goes_well(&rt, rt.alloc(), Run::Writers)
}
