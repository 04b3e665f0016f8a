// The recorded roots of a store, in the order of their versions.
ghost use Rattle.std.specs.Prelude.{◌≡◌, IfOk};
ghost use Rattle.jf_totals.specs.Texts.{recorded_roots};

use jf_accum::Accumulator;
use jf_disk::Disk;
use jf_engine::Engine;
use jf_path::Memory;
use std::alloc::Global;

// The recorded roots, from the base up to the head.
pub(crate) fn recorded_roots<D: Disk>(
    alloc: Global,
    engine: &Engine<D>,
) -> Result<Accumulator, Memory>
    ensures { IfOk result (λ roots. roots ≡ recorded_roots engine.now.versions) }
{
    engine.know();
    let state = engine.state();
    let count = state.head - state.base + 1;
    let mut roots = Accumulator::with_capacity(alloc, count as usize)?;
    for i in 0..count {
        let Some(root) = engine.root_of(state.base + i) else {
            unreachable!();
        };
        roots.push(&root)?;
    }
    Ok(roots)
}
