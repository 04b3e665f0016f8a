// The five points of the rule, for proofs about boards that threads share. These functions do
// nothing when they run.
ghost use Rattle.std.specs.Prelude.{ℕ, max};
ghost use Rattle.jf_board.specs.declared.views.Hold.{Hold};
ghost use Rattle.jf_board.specs.Rule.{Below, BoardState, IsBoard, CutIsLow, WordsAreHolds, PrunerKnows, LoadedGatesAreLow, PairsAreAnnounced};

/// The cut is at most the gate, and at most each version that is confirmed.
pub fn know_cut_is_low()
    ensures { (passes : ℕ) (s : BoardState) → IsBoard passes s → CutIsLow s }
{}

/// A pin word is what its place's view says, and 0 if its number isn't given. Numbers of places differ and lie below
/// the count, and a place's list has each version that it has announced or confirmed.
pub fn know_words_are_holds()
    ensures { (passes : ℕ) (s : BoardState) → IsBoard passes s → WordsAreHolds s }
{}

/// The pruner's gate and cut are the words. Its low is at most the gate, and at most each confirmed version whose word
/// was scanned.
pub fn know_pruner_knows()
    ensures { (passes : ℕ) (s : BoardState) → IsBoard passes s → PrunerKnows s }
{}

/// A gate that a place loaded is at most the gate.
pub fn know_loaded_gates_are_low()
    ensures { (passes : ℕ) (s : BoardState) → IsBoard passes s → LoadedGatesAreLow s }
{}

/// The version of each pair that the pruner ever loaded stands in the list of the place with that number.
pub fn know_pairs_are_announced()
    ensures { (passes : ℕ) (s : BoardState) → IsBoard passes s → PairsAreAnnounced s }
{}

/// The greater of two numbers is at most a confirmed version if both are. So a cut made after a scan is at most each
/// version that the scan's own place holds.
pub fn know_greater_is_below()
    ensures { (a b : ℕ) (hold : Hold) → Below a hold → Below b hold → Below (max a b) hold }
{}
