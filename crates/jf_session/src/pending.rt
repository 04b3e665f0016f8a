// The commands on what the session keeps for itself. They ask nothing of the store.
ghost use Rattle.std.specs.Prelude.{◌≡◌, ◌≤◌, ℕ, List, length, false};
ghost use Rattle.jf_path.specs.Limits.{max_value};
ghost use Rattle.jf_hash.specs.Hashes.{K};
ghost use Rattle.jf_script.specs.Bounds.{IsBoundedCommand};
ghost use Rattle.jf_script.specs.declared.command.Command.TheVariants as command;
ghost use Rattle.jf_script.specs.declared.command.OwnCommand.TheVariants as own_command;
ghost use Rattle.jf_store.specs.Starts.{Start};
ghost use Rattle.jf_session.specs.Steps.{IsRunningOn, IsObeyed};

use crate::session::Session;
use crate::stop::Stop;
use jf_disk::Disk;
use jf_hash::key_of;
use jf_path::{Bytes, Key, Memory, SharedBytes};
use jf_script::{OwnCommand, Refusal, Reply};
use jf_split::BatchFault;
use jf_store::Store;
use std::alloc::Global;

impl<D: Disk> Session<D> {
    // Answers a command on what the session keeps for itself.
    pub(crate) fn own_command(
        &mut self,
        alloc: Global,
        store: &Store<D>,
        own: OwnCommand,
    ) -> Result<Reply, Stop>
        requires open { IsRunningOn self.old store.now }
        requires bounded { IsBoundedCommand (command.Own own) }
        ensures { IsObeyed store.now.start self.old self.new (command.Own own) result }
    {
        match own {
            OwnCommand::Put { name, value } => self.put(alloc, name.as_slice(), value),
            OwnCommand::Del { name } => self.del(alloc, name.as_slice()),
            OwnCommand::Unpin { place } => self.unpin(store, place),
        }
    }

    // Answers `put`: in what is pending, the key of the name has this value, which is taken over.
    pub(crate) fn put(&mut self, alloc: Global, name: &[u8], value: Bytes) -> Result<Reply, Stop>
        requires over { self.old.over ≡ false }
        requires short { length value ≤ max_value }
        ensures { (start : Start) → IsObeyed start self.old self.new (command.Own (own_command.Put name.now value)) result }
    {
        let value = match SharedBytes::of(alloc, value) {
            Ok(value) => value,
            Err(Memory) => return Err(Stop::Memory),
        };
        self.put_at(alloc, &key_of(name), value)
    }

    // Answers `put` of a name that has this key, as `put` does.
    pub(crate) fn put_at(
        &mut self,
        alloc: Global,
        key: &Key,
        value: SharedBytes,
    ) -> Result<Reply, Stop>
        requires over { self.old.over ≡ false }
        requires short { length value ≤ max_value }
        ensures pass { self.new.pass ≡ self.old.pass }
        ensures obeyed { (start : Start) (name : List ℕ) → key.now ≡ K name → IsObeyed start self.old self.new (command.Own (own_command.Put name value)) result }
    {
        match self.pending.put(alloc, key, value) {
            Ok(()) => {}
            Err(BatchFault::Full) => return Ok(Reply::No(Refusal::Pending)),
            Err(BatchFault::Memory) => return Err(Stop::Memory),
        }
        Ok(Reply::Pending {
            count: self.pending.len() as u64,
        })
    }

    // Answers `del`: what is pending removes the key of the name.
    pub(crate) fn del(&mut self, alloc: Global, name: &[u8]) -> Result<Reply, Stop>
        requires { self.old.over ≡ false }
        ensures { (start : Start) → IsObeyed start self.old self.new (command.Own (own_command.Del name.now)) result }
    {
        match self.pending.del(alloc, &key_of(name)) {
            Ok(()) => {}
            Err(BatchFault::Full) => return Ok(Reply::No(Refusal::Pending)),
            Err(BatchFault::Memory) => return Err(Stop::Memory),
        }
        Ok(Reply::Pending {
            count: self.pending.len() as u64,
        })
    }
}
