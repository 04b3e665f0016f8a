// The line on standard error about a status.
ghost use Rattle.std.specs.Prelude.{◌≡◌, Some};
ghost use Rattle.hex.specs.Hex.{encode_lower};
ghost use Rattle.jf_main.specs.Lines.{check_number, landing_refusal_text, refusal_text, side_word, status_text, unfollowed_text};

use hex::encode_to_slice;
use jf_disk::Side;
use jf_evidence::RangeFault;
use jf_hash::Hash;
use jf_run::status::Status;
use jf_run::{FollowFault, FollowRefused, RestoreFault};
use std::{fmt, str};

/// The line about a status, without its line feed (docs/FORMATS.md, "Calling the program"): empty for `Done`.
#[derive(Clone, Copy, Drop)]
pub struct StatusLine(pub Status);

impl fmt::Display for StatusLine {
    ghost output = { λ l. Some (status_text l.0) };

    fn fmt<W: fmt::Write>(&self, f: &mut fmt::Formatter<W>) -> fmt::Result {
        match self.0 {
            Status::Done => Ok(()),
            Status::Usage => write!(
                f,
                "usage: jellystore FOLDER run|serve|restore VERSION ROOT|verify|generate SEED BATCHES SIZE [--workers N]"
            ),
            Status::ReadFault => write!(f, "read fault"),
            Status::WriteFault => write!(f, "write fault"),
            Status::DiskFault => write!(f, "disk fault"),
            Status::Damaged { side, offset } => {
                let side = side_word(side);
                write!(f, "damaged {side} {offset}")
            }
            Status::InputFull => write!(f, "input full"),
            Status::Memory => write!(f, "out of memory"),
            Status::Refused(why) => {
                let why = RefusalWords(why);
                write!(f, "refused {why}")
            }
            Status::Outside { least, head } => write!(f, "outside {least} {head}"),
            Status::Unfollowed(why) => {
                let why = UnfollowedWords(why);
                write!(f, "unfollowed {why}")
            }
            Status::NotShown(why) => {
                let number = why.number();
                write!(f, "not shown {number}")
            }
            Status::Elsewhere { head, root } => {
                let root = HashDigits(root);
                write!(f, "elsewhere {head} {root}")
            }
        }
    }
}

// The words that say why a restore, or an input of names, was refused (docs/FORMATS.md, "Restoring a version").
#[derive(Clone, Copy, Drop)]
struct RefusalWords(RestoreFault);

impl fmt::Display for RefusalWords {
    ghost output = { λ w. Some (refusal_text w.0) };

    fn fmt<W: fmt::Write>(&self, f: &mut fmt::Formatter<W>) -> fmt::Result {
        match self.0 {
            RestoreFault::NotEmpty(head) => write!(f, "not-empty {head}"),
            RestoreFault::Line(line) => write!(f, "line {line}"),
            RestoreFault::Chunk(line, why) => {
                let check = failed_check(why);
                write!(f, "chunk {line} {check}")
            }
            RestoreFault::NotWhole(announced, found) => {
                let (announced, found) = (HashDigits(announced), HashDigits(found));
                write!(f, "not-whole {announced} {found}")
            }
            RestoreFault::Last => write!(f, "last"),
        }
    }
}

// The words that say why landing blocks were not followed further (docs/FORMATS.md, "Landing blocks").
#[derive(Clone, Copy, Drop)]
struct UnfollowedWords(FollowRefused);

impl fmt::Display for UnfollowedWords {
    ghost output = { λ w. Some (unfollowed_text w.0) };

    fn fmt<W: fmt::Write>(&self, f: &mut fmt::Formatter<W>) -> fmt::Result {
        match self.0 {
            FollowRefused::Line(line) => write!(f, "line {line}"),
            FollowRefused::Block(line, why) => {
                let why = LandingRefusalWords(why);
                write!(f, "block {line} {why}")
            }
        }
    }
}

// The words that say why a landing block was refused (docs/FORMATS.md, "Landing blocks").
#[derive(Clone, Copy, Drop)]
struct LandingRefusalWords(FollowFault);

impl fmt::Display for LandingRefusalWords {
    ghost output = { λ w. Some (landing_refusal_text w.0) };

    fn fmt<W: fmt::Write>(&self, f: &mut fmt::Formatter<W>) -> fmt::Result {
        match self.0 {
            FollowFault::Broken => write!(f, "broken"),
            FollowFault::Below(base) => write!(f, "below {base}"),
            FollowFault::Differs {
                version,
                announced,
                found,
            } => {
                let (announced, found) = (HashDigits(announced), HashDigits(found));
                write!(f, "differs {version} {announced} {found}")
            }
            FollowFault::Gap(head) => write!(f, "gap {head}"),
            FollowFault::Last => write!(f, "last"),
            FollowFault::DiskFault => write!(f, "disk fault"),
            FollowFault::Memory => write!(f, "out of memory"),
        }
    }
}

// A hash as its 64 digits.
#[derive(Clone, Copy, Drop)]
struct HashDigits(Hash);

impl fmt::Display for HashDigits {
    ghost output = { λ d. Some (encode_lower d.0) };

    fn fmt<W: fmt::Write>(&self, f: &mut fmt::Formatter<W>) -> fmt::Result {
        f.write_str(digits(&self.0, &mut [0; 64]))
    }
}

// The digits of a hash, written into `text`.
fn digits<'a>(hash: &Hash, text: &'a mut [u8; 64]) -> &'a str
    ensures { result.now ≡ encode_lower hash.now }
{
    write_digits(hash, text);
    match str::from_utf8(text) {
        Ok(digits) => digits,
        // Digits are text.
        Err(_) => "",
    }
}

// Writes the digits of a hash, two for each of its 32 bytes.
fn write_digits(hash: &Hash, text: &mut [u8; 64])
    ensures { text.new ≡ encode_lower hash.now }
{
    // They fit.
    let _ = encode_to_slice(hash, text);
}

// The letter of a side.
fn side_word(side: Side) -> &'static str
    ensures { result.now ≡ side_word side }
{
    match side {
        Side::A => "a",
        Side::B => "b",
    }
}

// The number of the check by which a chunk is refused (docs/FORMATS.md, "Chunk blocks").
fn failed_check(why: RangeFault) -> u8
    ensures { result ≡ check_number why }
{
    match why {
        RangeFault::Empty => 1,
        RangeFault::Order => 2,
        RangeFault::Count => 3,
        RangeFault::Lone => 4,
        RangeFault::WrongRoot => 5,
    }
}
