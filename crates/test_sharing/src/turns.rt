// Threads of their own take turns at a list of marks: two write, and one looks.
ghost use Rattle.std.specs.Prelude.{◌≡◌, ℕ, ◌+◌, ◌<◌, ◌≤◌, [], ◌∷◌, ◌++◌, length, IsTrue, IfOk, IfSome, None};
ghost use Rattle.jf_path.specs.Limits.{max_sessions};
ghost use Rattle.jf_turn.specs.Lists.{HasElement};
ghost use Rattle.jf_turn.specs.Seats.{IsSeatOf, AreNewSeats};

use jf_turn::{EntryList, Seat, Turn, TurnRefused};
use std::alloc::Global;
use std::sync::Wait;
use std::test::Fail;
use std::thread;
use std::thread::Threads;

// How often each writer writes, how often the reader looks, and the most entries that the list has in the end.
const WRITES: u64 = 300;

const LOOKS: u64 = 40;

const MOST: u64 = 600;

// Who wrote, and how often it had written before.
#[derive(Clone, Copy, PartialEq, Debug)]
struct Mark {
    owner: u64,
    place: u64,
}

#[derive(Drop)]
struct Marks {
    marks: Vec<Mark>,
    start: u64,
}

impl EntryList for Marks {
    type Entry = Mark;

    type Start = u64;

    ghost list = { λ m. m.marks.items };

    ghost names = { λ e. e.owner };

    ghost start = { λ m. m.start };

    fn entry_count(&self) -> u64 {
        self.marks.len() as u64
    }
}

impl Marks {
    fn add(&mut self, mark: Mark) -> bool
        ensures yes { IsTrue result → self.new.marks.items ≡ self.old.marks.items ++ mark ∷ [] }
        ensures no { ¬ (IsTrue result) → self.new.marks.items ≡ self.old.marks.items }
        ensures start { self.new.start ≡ self.old.start }
    {
        self.marks.push(mark).is_ok()
    }
}

fn new_turn(
    alloc: Global,
    seats: u64,
) -> Result<(Turn<Marks>, Vec<Seat<Marks>>), TurnRefused<Marks>>
    requires { (1 ≤ seats) × (seats ≤ max_sessions) }
    ensures { IfOk result (λ r. (r.0.seats ≡ seats) × (length r.1.items ≡ seats) × (1 ≤ seats) × AreNewSeats r.0 r.1.items 0) }
{
    let marks = Marks {
        marks: Vec::new(alloc),
        start: 7,
    };
    let (turn, seats) = Turn::new(alloc, marks, seats)?;
    Ok((turn, seats))
}

// Joins all seats into one, which represents the numbers of all.
fn gather(turn: &Turn<Marks>, mut seats: Vec<Seat<Marks>>) -> Seat<Marks>
    requires new { AreNewSeats turn.now seats.items 0 }
    requires seats { (length seats.items ≡ turn.now.seats) × (1 ≤ turn.now.seats) }
    ensures own { IsSeatOf result turn.now × (result.taken ≡ None) }
    ensures gathered { (n : ℕ) → n < turn.now.seats → HasElement result.numbers n }
{
    let Some(mut seat) = seats.pop() else {
        unreachable!()
    };
    while let Some(other) = seats.pop() {
        seat.join(turn, other);
    }
    seat
}

// Joins the seats and ends the turn.
fn close_at_once(turn: Turn<Marks>, seats: Vec<Seat<Marks>>) -> Marks
    requires new { AreNewSeats turn seats.items 0 }
    requires seats { (length seats.items ≡ turn.seats) × (1 ≤ turn.seats) }
{
    let seat = gather(&turn, seats);
    turn.close(seat)
}

// Whether there are `count` seats, numbered from 0 on, which have seen nothing.
fn are_unused(seats: &[Seat<Marks>], count: u64) -> bool {
    let mut number: u64 = 0;
    for seat in seats {
        if seat.number() != number || seat.seen_count() != 0 {
            return false;
        }
        number = number.wrapping_add(1);
    }
    number == count
}

// Whether a turn of `count` seats, which no thread takes, ends with the list that it began with.
fn ends_as_it_began(alloc: Global, count: u64) -> Result<bool, Fail>
    requires { (1 ≤ count) × (count ≤ max_sessions) }
{
    let (turn, seats) = new_turn(alloc, count).ok().ok_or("no memory")?;
    let unused = are_unused(seats.as_slice(), count);
    let marks = close_at_once(turn, seats);
    Ok(unused && marks.entry_count() == 0 && marks.start == 7)
}

#[test]
fn one_seat_and_sixteen(rt: HostRuntime) -> Result<(), Fail> {
    assert!(rt; ends_as_it_began(rt.alloc(), 1)?);
    assert!(rt; ends_as_it_began(rt.alloc(), 2)?);
    assert!(rt; ends_as_it_began(rt.alloc(), 16)?);
    Ok(())
}

// Takes the turn, and gives it back with one more mark. Returns whether there was memory for it.
fn write_once<H: Wait>(rt: &H, turn: &Turn<Marks>, seat: &mut Seat<Marks>, place: u64) -> bool
    requires { IsSeatOf seat.old turn.now × (seat.old.taken ≡ None) }
    ensures { IsSeatOf seat.new turn.now × (seat.new.taken ≡ None) × (seat.new.numbers ≡ seat.old.numbers) }
{
    let mut marks = seat.take(rt, turn);
    let mark = Mark {
        owner: seat.number(),
        place,
    };
    let written = marks.entry_count() < MOST && marks.add(mark);
    seat.give(turn, marks);
    written
}

fn write_all<H: Wait>(rt: &H, turn: &Turn<Marks>, mut seat: Seat<Marks>) -> (Seat<Marks>, bool)
    requires { IsSeatOf seat turn.now × (seat.taken ≡ None) }
    ensures { IsSeatOf result.0 turn.now × (result.0.taken ≡ None) × (result.0.numbers ≡ seat.numbers) }
{
    let mut all = true;
    for place in 0..WRITES {
        all = write_once(rt, turn, &mut seat, place) && all;
    }
    (seat, all)
}

// Copies the list. Returns whether it goes on from the copy before, and there was memory.
fn look<H: Wait>(rt: &H, turn: &Turn<Marks>, seat: &mut Seat<Marks>, copy: &mut Vec<Mark>) -> bool
    requires { IsSeatOf seat.old turn.now × (seat.old.taken ≡ None) }
    ensures { IsSeatOf seat.new turn.now × (seat.new.taken ≡ None) × (seat.new.numbers ≡ seat.old.numbers) }
{
    let marks = seat.take(rt, turn);
    let goes_on = marks.marks.as_slice().starts_with(copy.as_slice());
    copy.clear();
    let copied = copy.extend_from_slice(marks.marks.as_slice()).is_ok();
    seat.give(turn, marks);
    goes_on && copied
}

fn look_often<H: Wait>(
    rt: &H,
    alloc: Global,
    turn: &Turn<Marks>,
    mut seat: Seat<Marks>,
) -> (Seat<Marks>, Vec<Mark>, bool)
    requires { IsSeatOf seat turn.now × (seat.taken ≡ None) }
    ensures { IsSeatOf result.0 turn.now × (result.0.taken ≡ None) × (result.0.numbers ≡ seat.numbers) }
{
    let mut copy = Vec::new(alloc);
    let mut all = true;
    for _ in 0..LOOKS {
        all = look(rt, turn, &mut seat, &mut copy) && all;
    }
    (seat, copy, all)
}

// A writer and a reader, one of them in another thread.
fn write_and_look<H: Threads + Wait + Sync>(
    rt: &H,
    alloc: Global,
    turn: &Turn<Marks>,
    writer: Seat<Marks>,
    reader: Seat<Marks>,
) -> ((Seat<Marks>, bool), (Seat<Marks>, Vec<Mark>, bool))
    requires writer { IsSeatOf writer turn.now × (writer.taken ≡ None) }
    requires reader { IsSeatOf reader turn.now × (reader.taken ≡ None) }
    ensures writer { IsSeatOf result.0.0 turn.now × (result.0.0.taken ≡ None) × (result.0.0.numbers ≡ writer.numbers) }
    ensures reader { IsSeatOf result.1.0 turn.now × (result.1.0.taken ≡ None) × (result.1.0.numbers ≡ reader.numbers) }
{
    thread::join(
        rt,
        move || -> (Seat<Marks>, bool)
            requires { IsSeatOf writer turn.now × (writer.taken ≡ None) }
            ensures { IsSeatOf result.0 turn.entry.now × (result.0.taken ≡ None) × (result.0.numbers ≡ writer.numbers) }
        { write_all(rt, turn, writer) },
        move || -> (Seat<Marks>, Vec<Mark>, bool)
            requires { IsSeatOf reader turn.now × (reader.taken ≡ None) }
            ensures { IsSeatOf result.0 turn.entry.now × (result.0.taken ≡ None) × (result.0.numbers ≡ reader.numbers) }
        { look_often(rt, alloc, turn, reader) },
    )
}

#[tactic(auto, using(crate::proofs::Gathering::new_last))]
fn turn_of_three(
    alloc: Global,
) -> Result<(Turn<Marks>, Seat<Marks>, Seat<Marks>, Seat<Marks>), TurnRefused<Marks>>
    ensures turn { IfOk result (λ r. r.0.seats ≡ 3) }
    ensures own { IfOk result (λ r. IsSeatOf r.1 r.0 × IsSeatOf r.2 r.0 × IsSeatOf r.3 r.0) }
    ensures idle { IfOk result (λ r. (r.1.taken ≡ None) × (r.2.taken ≡ None) × (r.3.taken ≡ None)) }
    ensures numbers { IfOk result (λ r. (r.1.numbers ≡ 0 ∷ []) × (r.2.numbers ≡ 1 ∷ []) × (r.3.numbers ≡ 2 ∷ [])) }
{
    let (turn, mut seats) = new_turn(alloc, 3)?;
    let Some(three) = seats.pop() else {
        unreachable!()
    };
    let Some(two) = seats.pop() else {
        unreachable!()
    };
    let Some(one) = seats.pop() else {
        unreachable!()
    };
    Ok((turn, one, two, three))
}

#[tactic(auto, using(crate::proofs::Gathering::three_numbers))]
fn finish(turn: Turn<Marks>, mut one: Seat<Marks>, two: Seat<Marks>, three: Seat<Marks>) -> Marks
    requires seats { (turn.seats ≡ 3) × IsSeatOf one turn × IsSeatOf two turn × IsSeatOf three turn }
    requires idle { (one.taken ≡ None) × (two.taken ≡ None) × (three.taken ≡ None) }
    requires numbers { (one.numbers ≡ 0 ∷ []) × (two.numbers ≡ 1 ∷ []) × (three.numbers ≡ 2 ∷ []) }
{
    one.join(&turn, two);
    one.join(&turn, three);
    turn.close(one)
}

// How often an owner wrote, or `None` if its marks are out of order.
fn in_order(marks: &[Mark], owner: u64) -> Option<u64> {
    let mut next: u64 = 0;
    for mark in marks {
        if mark.owner == owner {
            if mark.place != next {
                return None;
            }
            next = next.wrapping_add(1);
        }
    }
    Some(next)
}

// What three seats end with, and the reader's last copy.
struct Met {
    one: Seat<Marks>,
    two: Seat<Marks>,
    three: Seat<Marks>,
    copy: Vec<Mark>,
    // Whether all was written, and each copy went on from the one before.
    well: bool,
}

// Two writers and a reader, each in a thread of its own.
fn meet<H: Threads + Wait + Sync>(
    rt: &H,
    alloc: Global,
    turn: &Turn<Marks>,
    one: Seat<Marks>,
    two: Seat<Marks>,
    three: Seat<Marks>,
) -> Met
    requires one { IsSeatOf one turn.now × (one.taken ≡ None) }
    requires two { IsSeatOf two turn.now × (two.taken ≡ None) }
    requires three { IsSeatOf three turn.now × (three.taken ≡ None) }
    ensures own { IsSeatOf result.one turn.now × IsSeatOf result.two turn.now × IsSeatOf result.three turn.now }
    ensures idle { (result.one.taken ≡ None) × (result.two.taken ≡ None) × (result.three.taken ≡ None) }
    ensures numbers { (result.one.numbers ≡ one.numbers) × (result.two.numbers ≡ two.numbers) × (result.three.numbers ≡ three.numbers) }
{
    let ((one, one_wrote), ((two, two_wrote), (three, copy, looked))) = thread::join(
        rt,
        move || -> (Seat<Marks>, bool)
            requires { IsSeatOf one turn.now × (one.taken ≡ None) }
            ensures { IsSeatOf result.0 turn.entry.now × (result.0.taken ≡ None) × (result.0.numbers ≡ one.numbers) }
        { write_all(rt, turn, one) },
        move || -> ((Seat<Marks>, bool), (Seat<Marks>, Vec<Mark>, bool))
            requires two { IsSeatOf two turn.now × (two.taken ≡ None) }
            requires three { IsSeatOf three turn.now × (three.taken ≡ None) }
            ensures two { IsSeatOf result.0.0 turn.entry.now × (result.0.0.taken ≡ None) × (result.0.0.numbers ≡ two.numbers) }
            ensures three { IsSeatOf result.1.0 turn.entry.now × (result.1.0.taken ≡ None) × (result.1.0.numbers ≡ three.numbers) }
        { write_and_look(rt, alloc, turn, two, three) },
    );
    Met {
        one,
        two,
        three,
        copy,
        well: one_wrote && two_wrote && looked,
    }
}

// Whether each writer's marks are all there, in order, and the reader's copy begins them.
fn are_all_written(marks: &Marks, copy: &[Mark]) -> bool {
    let marks = marks.marks.as_slice();
    marks.len() as u64 == 2 * WRITES
        && in_order(marks, 0) == Some(WRITES)
        && in_order(marks, 1) == Some(WRITES)
        && marks.starts_with(copy)
}

#[test]
fn two_writers_and_a_reader(rt: HostRuntime) -> Result<(), Fail> {
    let (turn, one, two, three) = turn_of_three(rt.alloc()).ok().ok_or("no memory")?;
    let met = meet(&rt, rt.alloc(), &turn, one, two, three);
    let Met {
        one,
        two,
        three,
        copy,
        well,
    } = met;
    assert!(rt; well && three.seen_count() == copy.len() as u64);
    let marks = finish(turn, one, two, three);
    assert!(rt; marks.entry_count() == 2 * WRITES && are_all_written(&marks, copy.as_slice()));
    Ok(())
}
