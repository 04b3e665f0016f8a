// Feeding lines to `Blocks`, and their result.
use jf_blocks::{FirstLine, first_line};
use jf_hash::Hash;
use jf_receive::{BlockFault, Blocks, Restore};
use jf_restore::RestoreRefused;
use std::alloc::Global;
use std::test::Fail;

/// The result of lines.
#[derive(Clone, Copy, Debug, PartialEq, Eq)]
pub(crate) enum Came {
    /// This many entries of the announced root.
    Whole(u64),
    /// Entries of another root.
    Else(Hash),
    Refused(BlockFault),
}

/// The hash of a line `root ROOT`.
pub(crate) fn root_of(line: &str) -> Result<Hash, Fail> {
    match first_line(line.as_bytes()) {
        Some(FirstLine::Root(root)) => Ok(root),
        _ => Err(Fail::new("no root")),
    }
}

/// Blocks of version 1 with this root, before the first line.
pub(crate) fn blocks_of(alloc: Global, root: &str) -> Result<Blocks, Fail> {
    Ok(Blocks::new(alloc, Restore::new(alloc, 1, root_of(root)?)))
}

/// Feeds lines one after another up to the first that is refused, and returns how many were taken before it.
pub(crate) fn taken_count(blocks: &mut Blocks, lines: &[&str]) -> usize {
    for (i, line) in lines.iter().enumerate() {
        if blocks.line(line.as_bytes()).is_err() {
            return i;
        }
    }
    lines.len()
}

/// The result of the blocks when the lines end.
pub(crate) fn came_to(blocks: Blocks) -> Came {
    match blocks.end() {
        Ok(restore) => whole(&restore),
        Err(why) => Came::Refused(why),
    }
}

fn whole(restore: &Restore) -> Came {
    match restore.whole() {
        Ok(count) => Came::Whole(count),
        Err(RestoreRefused::NotWhole(found)) => Came::Else(found),
        Err(_) => Came::Refused(BlockFault::Memory),
    }
}

/// Whether one more line, which begins a block, is refused as the last one was.
pub(crate) fn is_answered_alike(blocks: &mut Blocks, came: Came) -> bool {
    match (blocks.line(b"chunk 1 0 0"), came) {
        (Err(why), Came::Refused(wanted)) => why == wanted,
        _ => false,
    }
}
