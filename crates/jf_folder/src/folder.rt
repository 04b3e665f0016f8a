// A folder that is open, and the syncs that bring its entries to the device.
ghost use Rattle.std.specs.Prelude.{◌≡◌, ◌≤◌, None, IfOk, OnOk, OnErr, IfSome};
ghost use Rattle.jf_folder.specs.Calls.{no_calls, no_syncs, count_after_call, AreSynced};

use crate::cause::FaultCause;
use crate::counted::{CountedFile, one_more};
use crate::file::FileRefused;
use crate::found::is_stream;
use std::fs::File;
use std::io;
use std::marker::Model;
use std::rt::Files;

/// An open folder, whose syncs are counted; how often the folder that it stands in was looked for, opened and synced; and
/// the number of syncs that failed.
#[derive(Drop)]
pub(crate) struct Folder {
    file: CountedFile,
    looked: u64,
    opened: u64,
    parent: u64,
    failed: u64,
}

impl Model for Folder {
    ghost use Rattle.jf_folder.specs.Calls.{FolderSyncs};

    ghost Value = { FolderSyncs };

    ghost view = { λ f. record { own = f.file.whole_syncs; looked = f.looked; opened = f.opened; parent = f.parent; failed = f.failed } };
}

#[tactic(auto, using(crate::proofs::RaisedLaws::raised_zero))]
impl Folder {
    /// Opens a folder. It takes the lowest free descriptor, so that a closed standard stream is seen here, before any
    /// file is looked for.
    pub(crate) fn open<H: Files<File = File>>(rt: &H, path: &str) -> Result<Folder, FileRefused>
        ensures { IfOk result (λ f. f ≡ no_syncs) }
    {
        let file = File::open(rt, path)?;
        if is_stream(&file) {
            return Err(FileRefused::DiskFailed(FaultCause::ClosedStream));
        }
        Ok(Folder {
            file: CountedFile::new(file),
            looked: 0,
            opened: 0,
            parent: 0,
            failed: 0,
        })
    }

    // Counts a sync that failed.
    fn count_failed_sync(&mut self, outcome: io::Result<()>) -> io::Result<()>
        ensures value { result ≡ outcome }
        ensures ok { OnOk result (self.new ≡ self.old) }
        ensures failed { OnErr result (self.new ≡ record self.old { failed = count_after_call self.old.failed }) }
    {
        if outcome.is_err() {
            self.failed = one_more(self.failed);
        }
        outcome
    }

    /// Brings the folder's entries to the device.
    pub(crate) fn sync(&mut self) -> io::Result<()>
        ensures ok { OnOk result (self.new ≡ record self.old { own = count_after_call self.old.own }) }
        ensures failed { OnErr result (self.new ≡ record self.old { own = count_after_call self.old.own; failed = count_after_call self.old.failed }) }
    {
        let outcome = self.file.sync_all();
        self.count_failed_sync(outcome)
    }

    // The folder that this one stands in, if that can be opened.
    fn open_parent<H: Files<File = File>>(&mut self, rt: &H, parent: &str) -> Option<CountedFile>
        ensures found { IfSome result (λ f. (f ≡ no_calls) × (self.new ≡ record self.old { looked = count_after_call self.old.looked; opened = count_after_call self.old.opened })) }
        ensures none { result ≡ None → self.new ≡ record self.old { looked = count_after_call self.old.looked } }
    {
        self.looked = one_more(self.looked);
        match File::open(rt, parent) {
            Ok(file) => {
                self.opened = one_more(self.opened);
                Some(CountedFile::new(file))
            }
            Err(_) => None,
        }
    }

    /// Brings the entries of the folder that this one stands in to the device, if that can be opened: whoever may only
    /// pass through it may still have a store below it.
    pub(crate) fn sync_parent<H: Files<File = File>>(
        &mut self,
        rt: &H,
        parent: &str,
    ) -> io::Result<()>
        requires unopened { self.old.opened ≡ 0 }
        requires unsynced { self.old.parent ≡ 0 }
        ensures own { self.new.own ≡ self.old.own }
        ensures looked { self.new.looked ≡ count_after_call self.old.looked }
        ensures opened { self.new.opened ≤ 1 }
        ensures synced { self.new.parent ≡ self.new.opened }
        ensures ok { OnOk result (self.new.failed ≡ self.old.failed) }
        ensures failed { OnErr result (self.new.failed ≡ count_after_call self.old.failed) }
    {
        match self.open_parent(rt, parent) {
            Some(mut file) => {
                let outcome = file.sync_all();
                self.parent = file.whole_syncs();
                self.count_failed_sync(outcome)
            }
            None => Ok(()),
        }
    }

    /// Brings the folder's entries to the device, and those of its parent if that is due.
    pub(crate) fn sync_names<H: Files<File = File>>(
        &mut self,
        rt: &H,
        parent: &str,
        is_parent_due: bool,
    ) -> io::Result<()>
        requires { self.old ≡ no_syncs }
        ensures { OnOk result (AreSynced is_parent_due self.new) }
    {
        self.sync()?;
        if !is_parent_due {
            return Ok(());
        }
        self.sync_parent(rt, parent)
    }
}
