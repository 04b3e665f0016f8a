// A reader's eight pins: a pin is announced, then confirmed by loading the gate, and withdrawn again if the gate is
// above it.
ghost use Rattle.std.specs.Prelude.{◌≡◌, ℕ, ◌+◌, ◌-◌, ◌*◌, ◌^◌, ◌<◌, ◌≤◌, ◌≢◌, slice_index_or, IfSome, IfNone, IfOk, IfErr, None};
ghost use Rattle.jf_path.specs.Limits.{max_pins};
ghost use Rattle.jf_board.specs.declared.views.Hold.TheVariants.{Free, Confirmed};
ghost use Rattle.jf_board.specs.States.{pinned_at, HoldAt, IsLeastFree};
ghost use Rattle.jf_board.specs.Refusals.{RefusedPin};
ghost use Rattle.jf_board.specs.Steps.{with_hold};

use crate::board::Board;
use crate::pin_refused::PinRefused;
use crate::steps::{announce, confirm, withdraw};
use crate::views::View;
use atomic_table::Seat;
use jf_path::MAX_PINS;
use std::marker::Model;

/// A reader's seat at a board: a number, and eight places, 0 to 7, each of which holds a pinned version or nothing.
#[derive(Drop)]
pub struct Place {
    pub(crate) seat: Seat<(), View>,
    pub(crate) number: u64,
    pub(crate) pins: [Option<u64>; MAX_PINS as usize],
}

impl Model for Place {
    ghost use Rattle.std.specs.Prelude.{◌≡◌, ℕ, ◌+◌, ◌*◌, ◌<◌, ◌≤◌, [], length, slice_index_or, None};
    ghost use Rattle.jf_path.specs.Limits.{max_pins, max_sessions};
    ghost use Rattle.jf_board.specs.States.{PlaceState, place_of, Agrees};
    ghost use Rattle.jf_board.specs.declared.views.Hold.TheVariants.{Free};
    ghost use Rattle.jf_board.specs.declared.views.View.TheVariants.{Pins};

    ghost Value = { PlaceState };

    ghost view = { λ p. record { board = p.seat.table_id; known = place_of p.seat.me.0 } };

    ghost invariant = { λ p. (p.seat.me ≡ (Pins (place_of p.seat.me.0), [])) × (p.number ≡ (place_of p.seat.me.0).number) × (max_pins * p.number + max_pins + 3 ≤ p.seat.table_id.words) × (p.number < max_sessions) × (length (place_of p.seat.me.0).holds ≡ max_pins) × (length p.pins ≡ max_pins) × ((i : ℕ) → i < max_pins → Agrees (slice_index_or p.pins i None) (slice_index_or (place_of p.seat.me.0).holds i Free)) };
}

// The least place that holds nothing.
fn first_free(pins: &[Option<u64>; MAX_PINS as usize]) -> Option<usize>
    ensures found { IfSome result (λ i. (i < max_pins) × (slice_index_or pins.now i None ≡ None) × ((k : ℕ) → k < i → slice_index_or pins.now k None ≢ None)) }
    ensures none { IfNone result ((k : ℕ) → k < max_pins → slice_index_or pins.now k None ≢ None) }
{
    for i in 0..MAX_PINS as usize {
        if pins[i].is_none() {
            return Some(i);
        }
    }
    None
}

impl Place {
    /// Its number: places are numbered from 0 on, in the order of the list that `Board::new` returns.
    pub fn number(&self) -> u64
        ensures { result ≡ self.now.known.number }
    {
        self.number
    }

    /// Pins a version at the least free place, and returns that place, 0 to 7. The version is announced, and then
    /// confirmed if the gate, loaded after that, isn't above it. No cut is above a confirmed version until it is
    /// unpinned.
    pub fn pin(&mut self, board: &Board, version: u64) -> Result<u64, PinRefused>
        requires own { self.old.board ≡ board.now }
        requires version { version < 2 ^ 64 - 1 }
        ensures ok { IfOk result (λ i. IsLeastFree self.old.known i × (self.new.known.gate ≤ version) × (self.new.known ≡ pinned_at self.old.known i version self.new.known.gate)) }
        ensures refused { IfErr result (RefusedPin self.old.known version self.new.known) }
        ensures board { self.new.board ≡ self.old.board }
    {
        let Some(index) = first_free(&self.pins) else {
            return Err(PinRefused::Full);
        };
        announce(board, &mut self.seat, self.number, index, version);
        let gate = confirm(board, &mut self.seat);
        if gate > version {
            withdraw(board, &mut self.seat, self.number, index);
            return Err(PinRefused::Retired(gate));
        }
        self.pins[index] = Some(version);
        Ok(index as u64)
    }

    /// Frees a place, and returns the version that it held. Returns `None` if the place is above 7 or holds nothing;
    /// then nothing changes.
    pub fn unpin(&mut self, board: &Board, place: u64) -> Option<u64>
        requires { self.old.board ≡ board.now }
        ensures found { IfSome result (λ v. HoldAt self.old.known place (Confirmed v) × (self.new.known ≡ with_hold self.old.known place Free)) }
        ensures none { IfNone result ((self.new.known ≡ self.old.known) × (place < max_pins → HoldAt self.old.known place Free)) }
        ensures board { self.new.board ≡ self.old.board }
    {
        if place >= MAX_PINS {
            return None;
        }
        let index = place as usize;
        let version = self.pins[index]?;
        withdraw(board, &mut self.seat, self.number, index);
        self.pins[index] = None;
        Some(version)
    }
}
