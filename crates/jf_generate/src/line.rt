// A line of a generated script is a put or a delete drawn from a number, or one of five others.
ghost use Rattle.std.specs.Prelude.{◌≡◌, ◌++◌, ◌/◌, ◌^◌, OnOk, OnErr};
ghost use Rattle.jf_path.specs.Numbers.{two_bytes, eight_bytes};
ghost use Rattle.jf_text.specs.Words.{Extends};
ghost use Rattle.jf_generate.specs.Scripts.{deletes, drawn_line, next_drawn};
ghost use Rattle.jf_generate.specs.Places.{script_line};

use jf_path::{Bytes, Memory};
use jf_text::{write_hex, write_number};

// The number before is multiplied by this.
const FACTOR: u64 = 6_364_136_223_846_793_005;

// And then this is added.
const ADDEND: u64 = 1_442_695_040_888_963_407;

// A number over this is its highest two bytes.
const NAME_UNIT: u64 = 0x0001_0000_0000_0000;

// A number over this is its highest three bytes.
const CHOICE_UNIT: u64 = 0x0000_0100_0000_0000;

/// A line of a script that is generated.
#[derive(Clone, Copy, Debug)]
pub(crate) enum ScriptLine {
    /// A put or a delete, by the number that was drawn for it.
    Drawn(u64),
    Commit,
    Prune(u64),
    Compact,
    Root,
    Status,
}

/// The number that is drawn after this one.
#[tactic(auto, unfolding(crate::specs::Scripts::next_drawn))]
pub(crate) fn next_drawn(x: u64) -> u64
    ensures { result ≡ next_drawn x }
{
    x.wrapping_mul(FACTOR).wrapping_add(ADDEND)
}

/// Appends a line, without a line feed. If memory runs out, the text is unchanged.
pub(crate) fn write_line(line: ScriptLine, out: &mut Bytes) -> Result<(), Memory>
    ensures ok { OnOk result (out.new ≡ out.old ++ script_line line) }
    ensures err { OnErr result (out.new ≡ out.old) }
{
    let before = out.len();
    match write_text(line, out) {
        Ok(()) => Ok(()),
        Err(Memory) => {
            out.truncate(before);
            Err(Memory)
        }
    }
}

fn write_text(line: ScriptLine, out: &mut Bytes) -> Result<(), Memory>
    ensures ok { OnOk result (out.new ≡ out.old ++ script_line line) }
    ensures err { OnErr result (Extends out.old out.new) }
{
    match line {
        ScriptLine::Drawn(x) => write_drawn(x, out),
        ScriptLine::Commit => out.append(b"commit"),
        ScriptLine::Prune(upto) => write_number(b"prune ", upto, out),
        ScriptLine::Compact => out.append(b"compact"),
        ScriptLine::Root => out.append(b"root head"),
        ScriptLine::Status => out.append(b"status"),
    }
}

/// Appends the put or the delete of a number.
#[tactic(auto, unfolding(crate::specs::Scripts::drawn_line))]
fn write_drawn(x: u64, out: &mut Bytes) -> Result<(), Memory>
    ensures ok { OnOk result (out.new ≡ out.old ++ drawn_line x) }
    ensures err { OnErr result (Extends out.old out.new) }
{
    let name = name_of(x);
    if deletes(x) {
        write_hex(b"del ", &name, out)
    } else {
        write_hex(b"put ", &name, out)?;
        write_hex(b" =", &value_of(x), out)
    }
}

/// Whether the line of a number is a `del`.
fn deletes(x: u64) -> bool
    ensures { result ≡ deletes x }
{
    x / CHOICE_UNIT % 8 == 0
}

/// The name of a number: its highest two bytes.
#[tactic(auto, unfolding(jf_path::specs::Numbers::two_bytes))]
fn name_of(x: u64) -> [u8; 2]
    ensures { result ≡ two_bytes (x / 2 ^ 48) }
{
    ((x / NAME_UNIT) as u16).to_be_bytes()
}

/// The value of a number: its eight bytes, the highest first.
#[tactic(auto, unfolding(jf_path::specs::Numbers::eight_bytes))]
fn value_of(x: u64) -> [u8; 8]
    ensures { result ≡ eight_bytes x }
{
    x.to_be_bytes()
}
