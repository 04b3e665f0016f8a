// Two maps of one root. No two different maps with one root are known.
ghost use Rattle.std.specs.Prelude.{IfOk, T};
ghost use Rattle.std.specs.FinMap.{is_sorted};
ghost use Rattle.jf_path.specs.Keys.{key_cmp};

use jf_collide::maps_collide;
use jf_path::{Bytes, Memory, Pairs};
use std::alloc::Global;
use std::test::Fail;

// Two entries in the order of their keys.
fn two_entries(alloc: Global) -> Result<Pairs, Memory>
    ensures { IfOk result (λ es. T (is_sorted key_cmp es)) }
{
    let mut entries = Pairs::new(alloc);
    entries.push(([0; 32], Bytes::copy_of(alloc, b"one")?))?;
    entries.push(([16; 32], Bytes::copy_of(alloc, b"two")?))?;
    Ok(entries)
}

#[test]
fn one_map_given_twice_comes_apart_nowhere(rt: HostRuntime) -> Result<(), Fail> {
    let entries = two_entries(rt.alloc())?;
    let none = Pairs::new(rt.alloc());
    assert!(rt; maps_collide(rt.alloc(), &entries, &entries)?.is_none());
    assert!(rt; maps_collide(rt.alloc(), &none, &none)?.is_none());
    Ok(())
}
