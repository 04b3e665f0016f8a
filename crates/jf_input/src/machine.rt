// What takes an input line by line.
ghost use Rattle.std.specs.Prelude.{◌≡◌, ℕ, List, ◌++◌, Result, Ok, Err, OnOk, OnErr, IfErr, IsTrue};
ghost use Rattle.jf_input.specs.Feeds.{front_of_line, IsQuietLine};

use jf_path::Bytes;
use std::alloc::Global;

/// A line that is to be taken, and what is at hand of the input after it.
#[derive(Clone, Copy)]
pub struct AtHand<'a> {
    /// The line, without the byte that ends it. Of a line of more than 8,500 bytes, the first 8,501.
    pub line: &'a [u8],
    /// What follows the line and the byte that ends it: further lines, and perhaps the front of one.
    pub after: &'a [u8],
}

/// What takes the lines of an input one after another, and adds to a text at each of them.
pub trait LineMachine {
    /// Why it stops before the end of the input.
    type Stop: Drop;

    /// It takes what comes next.
    ghost ready: { Self → Type 0 };

    /// The effect of a line on it, and what it adds there, or why it stops.
    ghost takes: { Self → List ℕ → Self → Result (List ℕ) Self.Stop → Type 0 };

    /// The effect of the end of the input on it, in the same way.
    ghost ends: { Self → Self → Result (List ℕ) Self.Stop → Type 0 };

    /// What holds between two states if nothing changed but in the machine itself, so that what was added before may
    /// still be unwritten.
    ghost quiet: { Self → Self → Type 0 };

    /// Whether the next line, given as to `take_line`, is known to be quiet, whatever comes of it.
    fn is_quiet(&self, line: &[u8]) -> bool
        ensures { IsTrue result → IsQuietLine takes quiet self.now line.now };

    /// Takes the next line, and appends what it adds. What is at hand after it is for a machine that can do more lines at
    /// once; what the line does and adds doesn't depend on it. If the machine stops, nothing is appended.
    fn take_line(&mut self, alloc: Global, next: AtHand, out: &mut Bytes) -> Result<(), Self::Stop>
        requires { ready self.old }
        ensures ok { OnOk result ((t : List ℕ) × (out.new ≡ out.old ++ t) × ((whole : List ℕ) → next.entry.line.now ≡ front_of_line whole → takes self.old whole self.new (Ok t))) }
        ensures ready { OnOk result (ready self.new) }
        ensures silent { OnErr result (out.new ≡ out.old) }
        ensures err { (whole : List ℕ) → next.entry.line.now ≡ front_of_line whole → IfErr result (λ why. takes self.old whole self.new (Err why)) };

    /// Takes the end of the input, and appends what it adds.
    fn take_end(&mut self, alloc: Global, out: &mut Bytes) -> Result<(), Self::Stop>
        requires { ready self.old }
        ensures ok { OnOk result ((t : List ℕ) × (out.new ≡ out.old ++ t) × ends self.old self.new (Ok t)) }
        ensures err { IfErr result (λ why. ends self.old self.new (Err why)) };
}
