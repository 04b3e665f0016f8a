// The replies to a generated script are counted one by one, and the last two are kept.
ghost use Rattle.std.specs.Prelude.{◌≡◌, ◌+◌, ◌++◌, ◌<◌, ◌^◌, [], ◌∷◌, List, ℕ, OnOk, OnErr};
ghost use Rattle.jf_text.specs.Words.{Extends};
ghost use Rattle.jf_generate.specs.Reports.{is_refused, tally_of, tally_more, tally_text};

use jf_path::{Bytes, Memory};
use jf_text::{is_word, split_word, write_number};
use std::alloc::Global;
use std::marker::Model;
use std::mem::swap;

/// How many replies are refused, and the texts of the last two.
#[derive(Debug, Drop)]
pub struct ReplyTally {
    refused: u64,
    before: Bytes,
    last: Bytes,
    // Room for the next reply.
    spare: Bytes,
}

impl Model for ReplyTally {
    ghost use Rattle.jf_generate.specs.Reports.{Tally};

    ghost Value = { Tally };

    ghost view = { λ t. record { refused = t.refused; before = t.before; last = t.last } };
}

impl ReplyTally {
    /// Begins before the first reply.
    pub fn new(alloc: Global) -> ReplyTally
        // No reply is counted as refused, and the texts of the last two are empty.
        ensures { result ≡ tally_of [] }
    {
        ReplyTally {
            refused: 0,
            before: Bytes::new(alloc),
            last: Bytes::new(alloc),
            spare: Bytes::new(alloc),
        }
    }

    /// Takes the text of one reply more. If memory runs out, nothing has changed.
    pub fn add(&mut self, text: &[u8]) -> Result<(), Memory>
        // The number of refused replies has room for one more.
        requires { self.old.refused + 1 < 2 ^ 64 }
        // After `Ok` a refusal is counted, the last text has become the one before, and this text is the last.
        ensures value { OnOk result (self.new ≡ tally_more self.old text.now) }
        // After `Ok`, if this was what is kept of some replies, it is now what is kept of these and the new one.
        ensures tally { OnOk result ((replies : List (List ℕ)) → self.old ≡ tally_of replies → self.new ≡ tally_of (replies ++ text.now ∷ [])) }
        // If memory runs out, nothing has changed.
        ensures err { OnErr result (self.new ≡ self.old) }
    {
        self.spare.clear();
        self.spare.append(text)?;
        swap(&mut self.before, &mut self.last);
        swap(&mut self.last, &mut self.spare);
        if is_refused(text) {
            self.refused += 1;
        }
        Ok(())
    }

    /// Appends the line `refused C` and the last two replies. If memory runs out, the text is unchanged.
    pub fn write(&self, out: &mut Bytes) -> Result<(), Memory>
        // After `Ok` the line `refused C` and the texts of the last two replies were appended.
        ensures ok { OnOk result (out.new ≡ out.old ++ tally_text self.now) }
        // If memory runs out, the text is unchanged.
        ensures err { OnErr result (out.new ≡ out.old) }
    {
        let before = out.len();
        match self.write_parts(out) {
            Ok(()) => Ok(()),
            Err(Memory) => {
                out.truncate(before);
                Err(Memory)
            }
        }
    }

    fn write_parts(&self, out: &mut Bytes) -> Result<(), Memory>
        ensures ok { OnOk result (out.new ≡ out.old ++ tally_text self.now) }
        ensures err { OnErr result (Extends out.old out.new) }
    {
        write_number(b"refused ", self.refused, out)?;
        out.push(b'\n')?;
        out.append(self.before.as_slice())?;
        out.append(self.last.as_slice())
    }
}

/// Whether the second word of a reply's text is `no`.
fn is_refused(text: &[u8]) -> bool
    ensures { result ≡ is_refused text.now }
{
    match split_word(text) {
        (_, Some(rest)) => is_word(split_word(rest).0, b"no"),
        (_, None) => false,
    }
}
