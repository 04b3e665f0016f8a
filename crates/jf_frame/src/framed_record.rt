// A record that is kept by itself, so that the file's other bytes can be let go.
ghost use Rattle.std.specs.Prelude.{◌≡◌, ◌+◌, take, IfOk};
ghost use Rattle.jf_frame.specs.Framed.{IsWithin, framed_value, record_at_span};

use crate::framed_ref::FramedRef;
use crate::span::Span;
use jf_path::Memory;
use std::marker::Model;

/// A record: its kind, the offset of its gate in the file, in bytes, and its payload, in memory of its own.
#[derive(Debug, Drop)]
pub struct FramedRecord {
    kind: u8,
    offset: u64,
    payload: Vec<u8>,
}

impl Model for FramedRecord {
    ghost use Rattle.jf_frame.specs.Framed.{LogRecord};

    ghost Value = { LogRecord };

    ghost view = { λ r. record { kind = r.kind; offset = r.offset; payload = r.payload.items } };
}

/// The least memory, in bytes, that is given back at once.
const LEAST: usize = 1 << 20;

// Gives back the memory behind a file's bytes, if there is much of it.
fn give_back(bytes: &mut Vec<u8>)
    ensures { bytes.new.items ≡ bytes.old.items }
{
    if bytes.capacity() - bytes.len() >= LEAST {
        bytes.shrink_to_fit();
    }
}

impl FramedRecord {
    // Cuts the record at `span` off a file's bytes, with all that lies behind it. The bytes before its payload stay,
    // and the memory that the others leave is given back once it is a mebibyte.
    pub(crate) fn cut_off(bytes: &mut Vec<u8>, span: Span) -> Result<FramedRecord, Memory>
        requires { IsWithin bytes.old.items span }
        ensures record { IfOk result (λ r. r ≡ record_at_span bytes.old.items span) }
        ensures front { IfOk result (λ r. bytes.new.items ≡ take (span.offset + 10) bytes.old.items) }
    {
        let start = span.offset as usize + 10;
        bytes.truncate(start + span.size as usize);
        let payload = bytes.split_off(start)?;
        give_back(bytes);
        Ok(FramedRecord {
            kind: span.kind,
            offset: span.offset,
            payload,
        })
    }

    /// The record's kind.
    pub fn kind(&self) -> u8
        ensures { result ≡ self.now.kind }
    {
        self.kind
    }

    /// The offset of the record's gate in the file, in bytes.
    pub fn offset(&self) -> u64
        ensures { result ≡ self.now.offset }
    {
        self.offset
    }

    /// The record, lent.
    pub fn lent(&self) -> FramedRef<'_>
        ensures { framed_value result ≡ self.now }
    {
        FramedRef {
            kind: self.kind,
            offset: self.offset,
            payload: &self.payload,
        }
    }
}
