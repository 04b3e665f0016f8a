// What the seats of a board know, for contracts alone: of these types only `Size` has values when the program runs.
use std::collections::LinkedList;

/// What one of the eight places holds: nothing, a version announced, or a version confirmed.
pub enum Hold {
    Free,
    Announced(u64),
    Confirmed(u64),
}

/// What a place knows: its number, the gate that it loaded last, which of its eight it announced last, what each of the
/// eight holds, and all versions that it announced.
pub struct PlaceView {
    pub number: u64,
    pub gate: u64,
    pub latest: u64,
    pub holds: LinkedList<Hold>,
    pub announced: LinkedList<u64>,
}

/// What the pruner knows: gate and cut, how many numbers are given, the pin words that it loaded in this scan, the
/// pairs of number and version of all pins that it ever loaded, and the places that joined it.
pub struct PrunerView {
    pub gate: u64,
    pub cut: u64,
    pub count: u64,
    pub loaded: LinkedList<u64>,
    pub pairs: LinkedList<(u64, u64)>,
    pub joined: LinkedList<PlaceView>,
}

/// What a seat knows: it pins, it prunes, or its view has gone to another seat.
pub enum View {
    Pins(PlaceView),
    Prunes(PrunerView),
    Spent,
}

/// How many places a board has, and its first gate.
#[derive(Clone, Copy)]
pub struct Size {
    pub passes: u64,
    pub gate: u64,
}
