// What is seen of a folder's two files before anything is made, and whether a store may be opened over them.
ghost use Rattle.std.specs.Prelude.{◌≡◌};
ghost use Rattle.jf_folder.specs.Begun.{is_missing, has_more, is_open, lacks_a_file, is_foreign, store_refusal};

use crate::cause::FaultCause;

/// What is seen of a file: nothing, or its length in bytes and its first byte (`There(len, first)`; 0 if it is empty).
#[derive(Clone, Copy, Debug, PartialEq, Eq)]
pub enum Seen {
    Missing,
    There(u64, u8),
}

/// The length of the file `a.jf` of a new store, in bytes (docs/FORMATS.md, "The worked files").
const NEW_STORE_LEN: u64 = 101;

impl Seen {
    pub(crate) fn is_missing(self) -> bool
        ensures { result ≡ is_missing self }
    {
        match self {
            Seen::Missing => true,
            Seen::There(_, _) => false,
        }
    }

    pub(crate) fn has_more(self, len: u64) -> bool
        ensures { result ≡ has_more len self }
    {
        match self {
            Seen::Missing => false,
            Seen::There(found, _) => len < found,
        }
    }

    fn is_open(self) -> bool
        ensures { result ≡ is_open self }
    {
        match self {
            Seen::Missing => false,
            Seen::There(len, first) => 0 < len && first == 1,
        }
    }
}

// Whether one file is missing and the other may have held records.
fn lacks_a_file(a: Seen, b: Seen) -> bool
    ensures { result ≡ lacks_a_file a b }
{
    (a.is_missing() && b.has_more(1)) || (b.is_missing() && a.has_more(1))
}

// Whether neither file begins with a record, and one is no beginning of a new store.
fn is_foreign(a: Seen, b: Seen) -> bool
    ensures { result ≡ is_foreign a b }
{
    (!a.is_open() && !b.is_open()) && (a.has_more(NEW_STORE_LEN) || b.has_more(NEW_STORE_LEN))
}

/// Why no store is opened over two files of which this is seen, if it isn't (docs/FORMATS.md, "The files of a folder").
pub fn store_refusal(a: Seen, b: Seen) -> Option<FaultCause>
    // The result is why no store is opened over files seen so, or `None` if one is.
    ensures { result ≡ store_refusal a b }
{
    if lacks_a_file(a, b) {
        return Some(FaultCause::FileMissing);
    }
    if is_foreign(a, b) {
        return Some(FaultCause::NotAStore);
    }
    None
}
