// What `prove_range` returns if there is no chunk to give.
ghost use Rattle.std.specs.Prelude.{◌≡◌};
ghost use Rattle.jf_range.specs.declared.ask.RangeAsk.TheVariants as ask;

use jf_path::Memory;

/// Why no chunk is given.
#[derive(Clone, Copy, Debug, PartialEq, Eq)]
pub enum RangeAsk {
    /// No entry stands at the place: this is their number.
    Beyond(u64),
    /// Out of memory.
    Memory,
}

impl From<Memory> for RangeAsk {
    ghost from_gives = { λ _ e. e ≡ ask.Memory };

    fn from(_: Memory) -> Self {
        RangeAsk::Memory
    }
}
