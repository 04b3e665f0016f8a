// A nibble is four bits of a key: half a byte.
ghost use Rattle.std.specs.Prelude.{◌≡◌, ◌/◌, ◌%◌, ◌<◌, ◌↔◌, length, slice_index, IfSome, IsSome};

use std::marker::Model;

/// Four bits, as a number from 0 to 15.
#[derive(Clone, Copy, Debug, PartialEq, Eq, PartialOrd, Ord)]
pub struct Nibble {
    number: u8,
}

impl Model for Nibble {
    ghost use Rattle.std.specs.Prelude.{ℕ, ◌<◌};

    ghost Value = { ℕ };

    ghost view = { λ n. n.number };

    ghost invariant = { λ n. n.number < 16 };

    ghost inverse = { λ n. record { number = n } };
}

impl Nibble {
    /// The nibble of this number, or `None` if it is above 15.
    pub fn new(n: u8) -> Option<Nibble>
        // A nibble that is returned has this number.
        ensures value { IfSome result (λ m. m ≡ n) }
        // A nibble is returned exactly if the number is below 16.
        ensures given { IsSome result ↔ (n < 16) }
    {
        if n < 16 {
            Some(Nibble { number: n })
        } else {
            None
        }
    }

    /// Its number.
    pub fn get(self) -> u8
        // The result is the number of the nibble.
        ensures value { result ≡ self }
        // The number is below 16.
        ensures small { result < 16 }
    {
        self.number
    }

    /// The nibble of a number below 16.
    pub fn of(number: u8) -> Nibble
        // The number is below 16.
        requires { number < 16 }
        // The result is the nibble of this number.
        ensures { result ≡ number }
    {
        Nibble { number }
    }

    /// Half `i` of these bytes, from the high half of the first.
    pub(crate) fn half(bytes: &[u8], i: usize) -> Nibble
        // Half `i` is in one of the bytes.
        requires { i / 2 < length bytes.now }
        // If `i` is even, the result is the high half of byte `i / 2`.
        ensures even { i % 2 ≡ 0 → result ≡ slice_index bytes.now (i / 2) / 16 }
        // If `i` is odd, the result is the low half of byte `i / 2`.
        ensures odd { i % 2 ≡ 1 → result ≡ slice_index bytes.now (i / 2) % 16 }
    {
        let byte = bytes[i / 2];
        let number = if i % 2 == 0 { byte >> 4 } else { byte & 15 };
        Nibble { number }
    }
}
