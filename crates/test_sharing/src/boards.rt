// Worked tables of boards, and a pinner and a pruner in two threads.
ghost use Rattle.std.specs.Prelude.{◌≡◌, ◌+◌, ◌≤◌, IfSome};
ghost use Rattle.jf_path.specs.Limits.{max_sessions};
ghost use Rattle.jf_board.specs.States.{AreNewPlaces};

use jf_board::{Board, Held, PinRefused, Place, Pruner, Scan};
use std::alloc::Global;
use std::sync::atomic::{AtomicU64, Ordering};
use std::test::Fail;
use std::thread;
use std::thread::Threads;

// Takes the place with the greatest number of those that remain.
#[tactic(auto, using(crate::proofs::Places::last_place))]
fn take_last(board: &Board, places: &mut Vec<Place>) -> Option<Place>
    requires { AreNewPlaces board.now places.old.items 0 }
    ensures place { IfSome result (λ p. p.board ≡ board.now) }
    ensures others { AreNewPlaces board.now places.new.items 0 }
{
    places.pop()
}

// Whether a scan finds this, and the cut is then its low. The place may be any of the board's.
fn cuts_at(board: &Board, pruner: &mut Pruner, own: &mut Place, found: Scan) -> bool
    requires boards { (pruner.old.board ≡ board.now) × (own.old.board ≡ board.now) }
    ensures boards { (pruner.new.board ≡ board.now) × (own.new.board ≡ board.now) }
    ensures gate { pruner.new.known.gate ≡ pruner.old.known.gate }
{
    let scan = pruner.scan(board, own);
    let cut = pruner.cut(board);
    scan == found && cut == found.low
}

// The cut stays at a pin below the gate until the pin is given up.
fn a_pin_holds_the_cut(board: &Board, place: &mut Place, pruner: &mut Pruner) -> bool
    requires boards { (pruner.old.board ≡ board.now) × (place.old.board ≡ board.now) }
    requires gate { pruner.old.known.gate ≡ 0 }
    ensures boards { (pruner.new.board ≡ board.now) × (place.new.board ≡ board.now) }
{
    let held = Held {
        owner: 0,
        place: 0,
        version: 3,
    };
    let pinned = place.pin(board, 3) == Ok(0);
    pruner.raise(board, 5);
    let raised = pruner.gate() == 5;
    let stays = cuts_at(
        board,
        pruner,
        place,
        Scan {
            low: 3,
            held: Some(held),
        },
    );
    let refused = place.pin(board, 4) == Err(PinRefused::Retired(5));
    let unpinned = place.unpin(board, 0) == Some(3);
    let rises = cuts_at(board, pruner, place, Scan { low: 5, held: None });
    pinned && raised && stays && refused && unpinned && rises
}

#[test]
fn pins_hold_the_cut(rt: HostRuntime) -> Result<(), Fail> {
    let (board, mut places, mut pruner) = Board::new(rt.alloc(), 1, 0)?;
    let mut place = take_last(&board, &mut places).ok_or("no place")?;
    assert!(rt; a_pin_holds_the_cut(&board, &mut place, &mut pruner));
    pruner.join(&board, place);
    Ok(())
}

// Whether eight pins are placed in order, and a ninth is refused.
fn pins_eight(board: &Board, place: &mut Place) -> bool
    requires { place.old.board ≡ board.now }
    ensures { place.new.board ≡ board.now }
{
    let mut all = true;
    for at in 0..8 {
        all &= place.pin(board, 0) == Ok(at);
    }
    all && place.pin(board, 0) == Err(PinRefused::Full)
}

#[test]
fn a_place_has_eight(rt: HostRuntime) -> Result<(), Fail> {
    let (board, mut places, _) = Board::new(rt.alloc(), 1, 0)?;
    let mut place = take_last(&board, &mut places).ok_or("no place")?;
    assert!(rt; pins_eight(&board, &mut place));
    assert!(rt; place.unpin(&board, 8) == None && place.unpin(&board, 7) == Some(0));
    Ok(())
}

// Whether the places have the numbers from 0 on.
fn are_numbered(places: &[Place]) -> bool {
    for (k, place) in places.iter().enumerate() {
        if place.number() != k as u64 {
            return false;
        }
    }
    true
}

// Whether a place with this number pins the first gate, 7, and the pruner then finds the pin there.
fn holds_as(owner: u64, board: &Board, place: &mut Place, pruner: &mut Pruner) -> bool
    requires boards { (pruner.old.board ≡ board.now) × (place.old.board ≡ board.now) }
    requires gate { pruner.old.known.gate ≡ 7 }
{
    let held = Held {
        owner,
        place: 0,
        version: 7,
    };
    let numbered = place.number() == owner;
    let pinned = place.pin(board, 7) == Ok(0);
    pruner.raise(board, 9);
    let stays = cuts_at(
        board,
        pruner,
        place,
        Scan {
            low: 7,
            held: Some(held),
        },
    );
    numbered && pinned && stays
}

// Whether the last place of a board of this size holds the first gate.
fn last_place_holds(alloc: Global, passes: u64) -> Result<bool, Fail>
    requires { (1 ≤ passes) × (passes ≤ max_sessions) }
{
    let (board, mut places, mut pruner) = Board::new(alloc, passes, 7)?;
    let numbered = are_numbered(places.as_slice());
    let mut last = take_last(&board, &mut places).ok_or("no place")?;
    Ok(numbered && holds_as(passes - 1, &board, &mut last, &mut pruner))
}

#[test]
fn boards_of_up_to_sixteen_places(rt: HostRuntime) -> Result<(), Fail> {
    assert!(rt; last_place_holds(rt.alloc(), 1)?);
    assert!(rt; last_place_holds(rt.alloc(), 2)?);
    assert!(rt; last_place_holds(rt.alloc(), 15)?);
    assert!(rt; last_place_holds(rt.alloc(), 16)?);
    Ok(())
}

const LAST_GATE: u64 = 1_000;
// Each version that is tried is above the one before.
const TRIES: u64 = LAST_GATE + 1;

// Pins the version; if it is retired, pins the gate that retired it, and so on. Returns the version and where it is
// pinned.
fn pin_from(board: &Board, place: &mut Place, version: u64) -> Option<(u64, u64)>
    requires { place.old.board ≡ board.now }
    ensures { place.new.board ≡ place.old.board }
{
    let mut version = version;
    for _ in 0..TRIES {
        if version > LAST_GATE {
            return None;
        }
        match place.pin(board, version) {
            Ok(at) => return Some((version, at)),
            Err(PinRefused::Retired(gate)) => version = gate,
            Err(PinRefused::Full) => return None,
        }
    }
    None
}

// What a pinner ends with: its last pin, which still stands, and whether no cut was above a pin of its own while it
// stood.
struct Pinning {
    place: Place,
    last: Option<(u64, u64)>,
    kept: bool,
}

fn pin_and_look(board: &Board, mut place: Place, cut: &AtomicU64) -> Pinning
    requires { place.board ≡ board.now }
    ensures { result.place.board ≡ board.now }
{
    let mut next = 0;
    let mut kept = true;
    for _ in 0..LAST_GATE {
        let Some((version, at)) = pin_from(board, &mut place, next) else {
            break;
        };
        kept &= cut.load(Ordering::SeqCst) <= version;
        place.unpin(board, at);
        next = version;
    }
    let last = pin_from(board, &mut place, next);
    Pinning { place, last, kept }
}

// Raises the gate to each version in turn, scans, cuts, and publishes each cut.
fn prune_up(board: &Board, mut pruner: Pruner, mut own: Place, cut: &AtomicU64) -> (Pruner, Place)
    requires boards { (pruner.board ≡ board.now) × (own.board ≡ board.now) }
    requires gate { pruner.known.gate ≡ 0 }
    ensures boards { (result.0.board ≡ board.now) × (result.1.board ≡ board.now) }
    ensures gate { result.0.known.gate ≡ LAST_GATE }
{
    for gate in 0..LAST_GATE {
        pruner.raise(board, gate + 1);
        pruner.scan(board, &mut own);
        cut.store(pruner.cut(board), Ordering::SeqCst);
    }
    (pruner, own)
}

// A pinner and a pruner, one of them in another thread.
fn pin_and_prune<H: Threads>(
    rt: &H,
    board: &Board,
    place: Place,
    pruner: Pruner,
    own: Place,
) -> (Pinning, (Pruner, Place))
    requires boards { (place.board ≡ board.now) × (pruner.board ≡ board.now) × (own.board ≡ board.now) }
    requires gate { pruner.known.gate ≡ 0 }
    ensures pinning { result.0.place.board ≡ board.now }
    ensures pruning { (result.1.0.board ≡ board.now) × (result.1.1.board ≡ board.now) × (result.1.0.known.gate ≡ LAST_GATE) }
{
    let cut = AtomicU64::new(0);
    thread::join(
        rt,
        || pin_and_look(board, place, &cut),
        || prune_up(board, pruner, own, &cut),
    )
}

// Whether the cut stays at the last pin, and rises to the gate once the pin is given up.
fn the_last_pin_holds(
    board: &Board,
    place: &mut Place,
    pin: (u64, u64),
    pruner: &mut Pruner,
    own: &mut Place,
) -> bool
    requires boards { (place.old.board ≡ board.now) × (pruner.old.board ≡ board.now) × (own.old.board ≡ board.now) }
    requires gate { pruner.old.known.gate ≡ LAST_GATE }
    ensures boards { (place.new.board ≡ board.now) × (pruner.new.board ≡ board.now) × (own.new.board ≡ board.now) }
{
    let (version, at) = pin;
    let held = Held {
        owner: 0,
        place: at,
        version,
    };
    pruner.raise(board, LAST_GATE + 1);
    let stays = cuts_at(
        board,
        pruner,
        own,
        Scan {
            low: version,
            held: Some(held),
        },
    );
    let unpinned = place.unpin(board, at) == Some(version);
    let rises = cuts_at(
        board,
        pruner,
        own,
        Scan {
            low: LAST_GATE + 1,
            held: None,
        },
    );
    stays && unpinned && rises
}

#[test]
fn no_cut_is_above_a_pin(rt: HostRuntime) -> Result<(), Fail> {
    let (board, mut places, pruner) = Board::new(rt.alloc(), 2, 0)?;
    let own = take_last(&board, &mut places).ok_or("no place")?;
    let place = take_last(&board, &mut places).ok_or("no place")?;
    let (pinning, (mut pruner, mut own)) = pin_and_prune(&rt, &board, place, pruner, own);
    let Pinning {
        mut place,
        last,
        kept,
    } = pinning;
    let pin = last.ok_or("no pin")?;
    assert!(rt; kept && the_last_pin_holds(&board, &mut place, pin, &mut pruner, &mut own));
    pruner.join(&board, own);
    pruner.join(&board, place);
    Ok(())
}
