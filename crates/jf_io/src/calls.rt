// The calls of a source or a sink in memory are counted, and a list says which of them fail.
ghost use Rattle.std.specs.Prelude.{◌≡◌, ◌↔◌, ◌-◌, ◌<◌, ◌≤◌, ◌^◌, IsTrue, Contains};
ghost use Rattle.jf_path.specs.Faults.{HasCause};
ghost use Rattle.jf_io.specs.Calls.{CallsMade, IsNextListed, after_success, after_fault};

use crate::failed::IoFailed;
use std::marker::Model;

/// The calls made so far, numbered from 0, the numbers of the calls that fail, and the count of failures.
///
/// Both counts stay at `u64::MAX` once they reach it.
#[derive(Debug, Drop)]
pub(crate) struct Calls {
    made: u64,
    failing: Vec<u64>,
    faults: u64,
}

impl Model for Calls {
    ghost use Rattle.jf_io.specs.Calls.{CallsMade};

    ghost Value = { CallsMade };

    ghost view = { λ c. record { made = c.made; failing = c.failing.items; faults = c.faults } };
}

impl Calls {
    /// No call was made yet. The calls whose numbers are in `failing` will fail.
    pub(crate) fn new(failing: Vec<u64>) -> Calls
        ensures { result ≡ record { made = 0; failing = failing.items; faults = 0 } }
    {
        Calls {
            made: 0,
            failing,
            faults: 0,
        }
    }

    /// How many calls failed.
    pub(crate) fn faults(&self) -> u64
        ensures { result ≡ self.now.faults }
    {
        self.faults
    }

    /// Whether the number of the next call is listed.
    pub(crate) fn is_next_listed(&self) -> bool
        ensures { IsTrue result ↔ IsNextListed self.now }
    {
        contains(&self.failing, self.made)
    }

    /// Counts a call that succeeded.
    pub(crate) fn succeed(&mut self)
        ensures { self.new ≡ after_success self.old }
    {
        self.made = self.made.saturating_add(1);
    }

    /// Counts a call that failed.
    pub(crate) fn fail(&mut self) -> IoFailed
        ensures counted { self.new ≡ after_fault self.old }
        ensures counts { self.old.faults ≤ self.new.faults }
        ensures rises { HasCause self.old.faults self.new.faults }
    {
        self.made = self.made.saturating_add(1);
        self.faults = self.faults.saturating_add(1);
        IoFailed
    }
}

// Whether the list holds the number.
fn contains(numbers: &[u64], number: u64) -> bool
    ensures { IsTrue result ↔ Contains numbers.now number }
{
    numbers.contains(&number)
}
