// A value that only contracts see.
ghost use Rattle.std.specs.Prelude.{◌≡◌};
ghost use Rattle.std.specs.Borrow.{ftrue};

use std::fmt;
use std::marker::{Model, PhantomData};

/// What a value was at a moment, for contracts, which read it as `value`. It takes no memory, and the value itself may be
/// gone.
#[derive(Drop)]
pub struct Remembered<A> {
    kind: PhantomData<A>,
    pub ghost value: { A },
}

impl<A> Model for Remembered<A> {
    ghost also_owns = { λ _. ftrue };
}

// It owns nothing.
unsafe impl<A: Send> Send for Remembered<A> {}

impl<A> fmt::Debug for Remembered<A> {
    fn fmt<W: fmt::Write>(&self, f: &mut fmt::Formatter<W>) -> fmt::Result {
        f.write_str("Remembered")
    }
}

impl<A> Remembered<A> {
    /// What the value is now. It does nothing.
    pub fn of(now: &A) -> Remembered<A>
        // The remembered value is what the value is now.
        ensures { result.value ≡ now.now }
    {
        Remembered { kind: PhantomData }
    }
}
