// The top of the next version.
ghost use Rattle.std.specs.Prelude.{◌≡◌, ◌+◌, ◌<◌, ◌^◌, Option, IfOk};
ghost use Rattle.std.specs.Option.{option_copied};
ghost use Rattle.jf_hash.specs.Maps.{Batch};
ghost use Rattle.jf_model.specs.Changes.{entries_after_batch};
ghost use Rattle.jf_node.specs.Children.{content};
ghost use Rattle.jf_diff.specs.OptionalNodes.{IsAtDepth};
ghost use Rattle.jf_update.specs.Outcomes.{AreParts};
ghost use Rattle.jf_update.specs.ValueHashes.{AreValueHashes};
ghost use Rattle.jf_update.specs.TopUpdates.{IsNextTop, NoneNewer};

use crate::outcome::Outcome;
use crate::wide::update_wide;
use jf_hash::Hash;
use jf_join::{Gate, Workers};
use jf_node::Link;
use jf_path::{Key, Memory, SharedBytes};
use std::alloc::Global;
use std::thread::Threads;

/// The top of a version, written anew by the next one.
fn renewed_top(alloc: Global, old: Option<&Link>, head: u64) -> Result<Option<Link>, Memory>
    requires head { head + 1 < 2 ^ 64 }
    requires old { IsAtDepth 0 (option_copied old) }
    requires newest { NoneNewer head (option_copied old) }
    ensures { IfOk result (λ top. (bs : Batch) → entries_after_batch (content (option_copied old.entry)) bs ≡ content (option_copied old.entry) → IsNextTop head (option_copied old.entry) bs top) }
{
    match old {
        None => Ok(None),
        Some(link) => {
            link.know();
            let top = link.renewed_link(alloc, head + 1)?;
            top.know();
            Ok(Some(top))
        }
    }
}

/// The top after changes of the version `head`, whose top is `old`, if any, by at most this many workers.
pub(crate) fn next_top<H: Threads + Sync, G: Gate>(
    rt: &H,
    alloc: Global,
    old: Option<&Link>,
    head: u64,
    entries: &[(Key, Option<SharedBytes>)],
    hashes: &[Hash],
    workers: Workers,
    gate: &G,
) -> Result<Option<Link>, Memory>
    requires head { head + 1 < 2 ^ 64 }
    requires old { IsAtDepth 0 (option_copied old) }
    requires newest { NoneNewer head (option_copied old) }
    requires parts { AreParts 0 (content (option_copied old)) entries.now }
    requires hashed { AreValueHashes entries.now hashes.now }
    ensures { IfOk result (λ top. IsNextTop head (option_copied old.entry) entries.now top) }
{
    match update_wide(rt, alloc, old, entries, hashes, 0, head + 1, workers, gate)? {
        Outcome::Same => renewed_top(alloc, old, head),
        Outcome::New(top) => {
            Link::know_if(&top);
            Ok(top)
        }
    }
}
