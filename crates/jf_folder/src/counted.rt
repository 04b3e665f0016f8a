// An open file that is reached through counted calls alone. Each call here makes one of std's, and counts it first.
ghost use Rattle.std.specs.Prelude.{◌≡◌, ◌≤◌, length, IfOk};
ghost use Rattle.jf_path.specs.Faults.{HasCause};
ghost use Rattle.jf_folder.specs.Calls.{no_calls, count_after_call};

use std::fs::File;
use std::io;
use std::marker::Model;
use std::os::unix::fs::FileExt;

/// A file and the number of calls on it so far, by kind.
#[derive(Drop)]
pub(crate) struct CountedFile {
    file: File,
    lengths: u64,
    reads: u64,
    writes: u64,
    cuts: u64,
    whole_syncs: u64,
    data_syncs: u64,
}

impl Model for CountedFile {
    ghost use Rattle.jf_folder.specs.Calls.{FileCalls};

    ghost Value = { FileCalls };

    ghost view = { λ f. record { lengths = f.lengths; reads = f.reads; writes = f.writes; cuts = f.cuts; whole_syncs = f.whole_syncs; data_syncs = f.data_syncs } };
}

// A count after one more call.
pub(crate) fn one_more(count: u64) -> u64
    ensures value { result ≡ count_after_call count }
    ensures counts { count ≤ result }
    ensures rises { HasCause count result }
{
    count.saturating_add(1)
}

impl CountedFile {
    pub(crate) fn new(file: File) -> CountedFile
        ensures { result ≡ no_calls }
    {
        CountedFile {
            file,
            lengths: 0,
            reads: 0,
            writes: 0,
            cuts: 0,
            whole_syncs: 0,
            data_syncs: 0,
        }
    }

    /// The number of whole syncs so far.
    pub(crate) fn whole_syncs(&self) -> u64
        ensures { result ≡ self.now.whole_syncs }
    {
        self.whole_syncs
    }

    pub(crate) fn length(&mut self) -> io::Result<u64>
        ensures { self.new ≡ record self.old { lengths = count_after_call self.old.lengths } }
    {
        self.lengths = one_more(self.lengths);
        Ok(self.file.metadata()?.len())
    }

    pub(crate) fn read_at(&mut self, buf: &mut [u8], at: u64) -> io::Result<usize>
        ensures within { IfOk result (λ n. n ≤ length buf.old) }
        ensures count { self.new ≡ record self.old { reads = count_after_call self.old.reads } }
        ensures counts { self.old.reads ≤ self.new.reads }
        ensures rises { HasCause self.old.reads self.new.reads }
    {
        self.reads = one_more(self.reads);
        self.file.read_at(buf, at)
    }

    pub(crate) fn write_at(&mut self, bytes: &[u8], at: u64) -> io::Result<usize>
        ensures within { IfOk result (λ n. n ≤ length bytes.now) }
        ensures count { self.new ≡ record self.old { writes = count_after_call self.old.writes } }
        ensures counts { self.old.writes ≤ self.new.writes }
        ensures rises { HasCause self.old.writes self.new.writes }
    {
        self.writes = one_more(self.writes);
        self.file.write_at(bytes, at)
    }

    pub(crate) fn cut(&mut self, len: u64) -> io::Result<()>
        ensures { self.new ≡ record self.old { cuts = count_after_call self.old.cuts } }
    {
        self.cuts = one_more(self.cuts);
        self.file.set_len(len)
    }

    /// Brings the bytes, the length and all else that the system keeps of the file to the device.
    pub(crate) fn sync_all(&mut self) -> io::Result<()>
        ensures { self.new ≡ record self.old { whole_syncs = count_after_call self.old.whole_syncs } }
    {
        self.whole_syncs = one_more(self.whole_syncs);
        self.file.sync_all()
    }

    /// Brings the bytes to the device, and of the rest what is needed to read them.
    pub(crate) fn sync_data(&mut self) -> io::Result<()>
        ensures { self.new ≡ record self.old { data_syncs = count_after_call self.old.data_syncs } }
    {
        self.data_syncs = one_more(self.data_syncs);
        self.file.sync_data()
    }
}
