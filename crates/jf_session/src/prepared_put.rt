// A put that was read before its line is taken.
ghost use Rattle.std.specs.Prelude.{◌≡◌, ◌≤◌, ◌++◌, ℕ, List, length, false};
ghost use Rattle.jf_path.specs.Limits.{max_value};
ghost use Rattle.jf_hash.specs.Hashes.{K};
ghost use Rattle.jf_prepare.specs.PreparedPuts.{IsPutOf};
ghost use Rattle.jf_script.specs.declared.command.Command.TheVariants as command;
ghost use Rattle.jf_script.specs.declared.command.OwnCommand.TheVariants as own_command;
ghost use Rattle.jf_store.specs.Starts.{Start};
ghost use Rattle.jf_session.specs.Steps.{IsRunningOn, IsObeyed};
ghost use Rattle.jf_session.specs.Taking.{DoesLine};

use crate::answer::write_answer;
use crate::session::Session;
use crate::stop::Stop;
use jf_disk::Disk;
use jf_path::{Bytes, Key, Memory, SharedBytes, know_key};
use jf_script::Reply;
use jf_store::Store;
use std::alloc::Global;

impl<D: Disk> Session<D> {
    // Answers `put` of a name that has this key, with a value that is copied.
    fn put_copy(&mut self, alloc: Global, key: &Key, value: &[u8]) -> Result<Reply, Stop>
        requires over { self.old.over ≡ false }
        requires short { length value.now ≤ max_value }
        ensures pass { self.new.pass ≡ self.old.pass }
        ensures obeyed { (start : Start) (name : List ℕ) → key.now ≡ K name → IsObeyed start self.old self.new (command.Own (own_command.Put name value.now)) result }
    {
        match SharedBytes::copy_of(alloc, value) {
            Ok(value) => self.put_at(alloc, key, value),
            Err(Memory) => Err(Stop::Memory),
        }
    }

    // Does a line that puts this value under a name of this key, and appends the reply.
    pub(crate) fn step_put(
        &mut self,
        alloc: Global,
        store: &Store<D>,
        key: &Key,
        value: &[u8],
        out: &mut Bytes,
    ) -> Result<(), Stop>
        requires open { IsRunningOn self.old store.now }
        requires short { length value.now ≤ max_value }
        ensures { (line : List ℕ) → IsPutOf line (key.now ++ value.now) → DoesLine self.old line out.old result self.new out.new }
    {
        know_key(key);
        self.know_own(store);
        self.know_events(store);
        let done = self.put_copy(alloc, key, value);
        self.know_own(store);
        match done {
            Ok(reply) => {
                let seen = self.seen_count();
                match write_answer(seen, &reply, &[], out) {
                    Ok(()) => Ok(()),
                    Err(Memory) => {
                        self.stop();
                        Err(Stop::Memory)
                    }
                }
            }
            Err(why) => {
                self.stop();
                Err(why)
            }
        }
    }
}
