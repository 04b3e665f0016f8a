// How many nodes went stale at each version.
ghost use Rattle.std.specs.Prelude.{◌≡◌, ◌+◌, ◌≤◌, take, drop};
ghost use Rattle.std.specs.List.{sum};

use std::collections::VecDeque;

/// Drops so many counts from the front of a queue, and returns what is left of a number without them.
pub(crate) fn count_left(counts: &mut VecDeque<u64>, dropped: u64, number: u64) -> u64
    requires { sum (take dropped counts.old.items) ≤ number }
    ensures value { result + sum (take dropped counts.old.items) ≡ number }
    ensures items { counts.new.items ≡ drop dropped counts.old.items }
{
    let mut left = number;
    for _ in 0..dropped {
        if let Some(count) = counts.pop_front() {
            left -= count;
        }
    }
    left
}
