// The kind of a record is one byte; that of the first record, a checkpoint, tells the format of the file.
ghost use Rattle.std.specs.Prelude.{◌≡◌};
ghost use Rattle.jf_payload.specs.Spelling.{checkpoint_kind};

use jf_codec::Format;

/// A later floor.
pub(crate) const FLOOR: u8 = 2;
/// A landing.
pub const COMMIT: u8 = 3;
/// Several landings.
pub const GROUP: u8 = 6;
/// The byte of a closed gate.
pub const CLOSED: u8 = 0;

/// The kind of a checkpoint in a file of a format: 4 in format 1, 5 in format 2.
pub(crate) fn checkpoint_kind(format: Format) -> u8
    ensures { result ≡ checkpoint_kind format }
{
    match format {
        Format::One => 4,
        Format::Two => 5,
    }
}
