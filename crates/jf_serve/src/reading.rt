// An input is read whole, and cut into scripts.
ghost use Rattle.std.specs.Prelude.{◌≡◌, ◌≤◌, ℕ, List, length, Err, IfOk, Some};
ghost use Rattle.jf_path.specs.Faults.{HasCause};
ghost use Rattle.jf_path.specs.Limits.{max_sessions};
ghost use Rattle.jf_serve.specs.SessionScripts.{HasReadScripts, IsTooLarge};

use crate::cutting::cut_input;
use crate::scripts::Scripts;
use crate::whole_input::read_to_end;
use jf_io::{FetchFault, Source};
use jf_path::Memory;
use std::alloc::Global;

/// The most bytes that an input may have.
pub const MAX_INPUT: u64 = 67_108_864;

/// Why no scripts were read.
#[derive(Clone, Copy, Debug, PartialEq, Eq)]
pub enum InputFault {
    /// The source failed.
    ReadFault,
    /// The input has more than `MAX_INPUT` bytes, or more than `MAX_SESSIONS` (jf_path) sessions.
    Full,
    /// Memory ran out.
    Memory,
}

impl From<FetchFault> for InputFault {
    ghost use Rattle.jf_serve.specs.InputFaults.{of_fetch};

    ghost from_gives = { λ f e. e ≡ of_fetch f };

    fn from(fault: FetchFault) -> Self {
        match fault {
            FetchFault::ReadFault => InputFault::ReadFault,
            FetchFault::Memory => InputFault::Memory,
        }
    }
}

impl From<Memory> for InputFault {
    ghost use Rattle.jf_serve.specs.declared.reading.InputFault.{InputFault};

    ghost from_gives = { λ _ e. e ≡ InputFault.Memory };

    fn from(_: Memory) -> Self {
        InputFault::Memory
    }
}

/// Reads an input to its end, and cuts it into the scripts of its sessions (docs/FORMATS.md, "Several sessions").
///
/// Refusals, after each of which some of the input was taken:
///
/// - `ReadFault`: the source failed.
/// - `Full`: byte 67,108,865 was read, or a seventeenth session begins.
/// - `Memory`: memory ran out.
pub fn read_scripts<S: Source>(alloc: Global, source: &mut S) -> Result<Scripts, InputFault>
    // There are 1 to 16 scripts.
    ensures number { IfOk result (λ scripts. (1 ≤ length scripts) × (length scripts ≤ max_sessions)) }
    // The input was read to its end, isn't too large, and the scripts are those of its sessions.
    ensures ok { IfOk result (HasReadScripts (S.rest source.old) (S.rest source.new)) }
    // It is refused as full only if it has too many bytes or sessions.
    ensures full { result ≡ Err InputFault.Full → (input : List ℕ) → S.rest source.old ≡ Some input → IsTooLarge input }
    // It returns a fault of the source only if the source counted one.
    ensures cause { result ≡ Err InputFault.ReadFault → HasCause (S.faults source.old) (S.faults source.new) }
    // The source's count of faults doesn't fall.
    ensures counts { S.faults source.old ≤ S.faults source.new }
{
    let input = read_to_end(alloc, source)?;
    cut_input(alloc, &input)
}
