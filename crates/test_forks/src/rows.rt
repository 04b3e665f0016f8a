// Tables of forks, made from rows.
ghost use Rattle.std.specs.Prelude.{◌≡◌, ◌+◌, ◌<◌, ◌^◌, length, IfOk, OnOk};
ghost use Rattle.jf_forks.specs.Tables.{StandsOver};

use jf_forks::{ForkFault, ForkTable};
use jf_hash::value;
use jf_model::Parent;
use jf_node::{Link, Snapshot};
use jf_path::{Memory, SharedBytes};
use jf_split::{Batch, BatchFault};
use std::alloc::Global;
use std::test::Fail;

// A fork: its parent, and its batch: one key of equal bytes with a value of one byte or `None` for a removal, or no
// change.
pub(crate) type Row = (Parent, Option<(u8, Option<u8>)>);

pub(crate) fn batch_of(alloc: Global, word: Option<(u8, Option<u8>)>) -> Result<Batch, BatchFault> {
    let mut batch = Batch::new(alloc);
    match word {
        None => {}
        Some((key, None)) => batch.del(alloc, &[key; 32])?,
        Some((key, Some(byte))) => batch.put(alloc, &[key; 32], &[byte])?,
    }
    Ok(batch)
}

// A head of one entry.
pub(crate) fn head_of_one(alloc: Global, key: u8, byte: u8) -> Result<Snapshot, Memory> {
    let shared = SharedBytes::copy_of(alloc, &[byte])?;
    let top = Link::leaf(alloc, 1, 0, &[key; 32], &shared, &value(&[byte]))?;
    Ok(Snapshot::of(1, Some(top)))
}

fn make_row(alloc: Global, table: &mut ForkTable, head: &Snapshot, row: &Row) -> Result<(), Fail>
    requires bounded { table.old.made < 2 ^ 62 }
    requires over { StandsOver head.now.map table.old }
    ensures made { OnOk result (table.new.made ≡ table.old.made + 1) }
    ensures stands { OnOk result (StandsOver head.now.map table.new) }
{
    let batch = batch_of(alloc, row.1)?;
    table.make(alloc, head, row.0, &batch)?;
    Ok(())
}

// The table of these forks on a head.
pub(crate) fn table_of(alloc: Global, head: &Snapshot, rows: &[Row]) -> Result<Box<ForkTable>, Fail>
    requires { length rows.now < 2 ^ 61 }
    ensures { IfOk result (λ t. StandsOver head.now.map t.value) }
{
    let mut table = Box::new(alloc, ForkTable::new(alloc))?;
    for i in 0..rows.len() {
        make_row(alloc, &mut table, head, &rows[i])?;
    }
    Ok(table)
}

// The byte that a fork has at a key.
pub(crate) fn byte_at(table: &ForkTable, id: u64, key: u8) -> Result<Option<u8>, ForkFault> {
    let tree = table.tree(id)?;
    Ok(first_of(tree.get(&[key; 32])))
}

pub(crate) fn first_of(value: Option<&[u8]>) -> Option<u8> {
    match value {
        Some(bytes) => bytes.first().copied(),
        None => None,
    }
}
