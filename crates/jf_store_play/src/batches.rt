// Batches of a few keys.
use jf_engine_play::steps::Change;
use jf_hash::key_of;
use jf_split::{Batch, BatchFault};
use std::alloc::Global;

/// The batch of these changes.
pub fn batch_of(alloc: Global, changes: &[Change]) -> Result<Batch, BatchFault> {
    let mut batch = Batch::new(alloc);
    for (name, byte) in changes {
        match byte {
            Some(byte) => batch.put(alloc, &key_of(&[*name]), &[*byte])?,
            None => batch.del(alloc, &key_of(&[*name]))?,
        }
    }
    Ok(batch)
}
