// The line of an entry, and the line that counts them.
ghost use Rattle.std.specs.Prelude.{◌≡◌, ◌∷◌, ◌++◌, [], codes, decimal, OnOk};
ghost use Rattle.hex.specs.Hex.{encode_lower};
ghost use Rattle.jf_text.specs.Words.{line_text};
ghost use Rattle.jf_script.specs.Replies.{fork_word};
ghost use Rattle.jf_serve.specs.ServedTexts.{entry_line, landing_word, parent_word};

use jf_model::{Entry, Landing, Parent};
use jf_path::{Bytes, Memory};
use jf_text::{write_hex, write_number};

/// Appends the line that says how many entries there are.
pub(crate) fn write_count(count: u64, out: &mut Bytes) -> Result<(), Memory>
    ensures { OnOk result (out.new ≡ out.old ++ line_text (codes "ledger" ∷ decimal count ∷ [])) }
{
    write_number(b"ledger ", count, out)?;
    out.push(b'\n')
}

/// Appends the line of an entry (docs/FORMATS.md, "Several sessions").
#[tactic(auto, unfolding(crate::specs::ServedTexts::entry_line))]
pub(crate) fn write_entry(entry: &Entry, out: &mut Bytes) -> Result<(), Memory>
    ensures { OnOk result (out.new ≡ out.old ++ entry_line entry.now) }
{
    match entry {
        Entry::Made {
            owner,
            fork,
            parent,
            root,
            ..
        } => write_made(*owner, *fork, *parent, root, out),
        Entry::Landed {
            owner,
            version,
            how,
            root,
            ..
        } => write_landed(*owner, *version, root, how, out),
        Entry::Dropped { owner, fork } => write_two(b"dropped ", *owner, b" f", *fork, out),
        Entry::Retired {
            owner,
            bound,
            floor,
        } => {
            write_number(b"retired ", *owner, out)?;
            write_two(b" ", *bound, b" ", *floor, out)
        }
        Entry::Compacted { owner, generation } => {
            write_two(b"compacted ", *owner, b" ", *generation, out)
        }
    }
}

/// Appends the line of a fork that was made.
fn write_made(
    owner: u64,
    fork: u64,
    parent: Parent,
    root: &[u8; 32],
    out: &mut Bytes,
) -> Result<(), Memory>
    ensures { OnOk result (out.new ≡ out.old ++ line_text (codes "made" ∷ decimal owner ∷ fork_word fork ∷ parent_word parent ∷ encode_lower root.now ∷ [])) }
{
    write_number(b"made ", owner, out)?;
    write_number(b" f", fork, out)?;
    write_parent(parent, out)?;
    write_hex(b" ", root, out)?;
    out.push(b'\n')
}

/// Appends the line of a landing.
fn write_landed(
    owner: u64,
    version: u64,
    root: &[u8; 32],
    how: &Landing,
    out: &mut Bytes,
) -> Result<(), Memory>
    ensures { OnOk result (out.new ≡ out.old ++ line_text (codes "landed" ∷ decimal owner ∷ decimal version ∷ encode_lower root.now ∷ landing_word how.now ∷ [])) }
{
    write_number(b"landed ", owner, out)?;
    write_number(b" ", version, out)?;
    write_hex(b" ", root, out)?;
    write_landing(how, out)?;
    out.push(b'\n')
}

/// Appends what a fork stands on, after a space.
fn write_parent(parent: Parent, out: &mut Bytes) -> Result<(), Memory>
    ensures { OnOk result (out.new ≡ out.old ++ 32 ∷ parent_word parent) }
{
    match parent {
        Parent::Head => out.append(b" head"),
        Parent::Fork(id) => write_number(b" f", id, out),
    }
}

/// Appends what was landed, after a space.
fn write_landing(how: &Landing, out: &mut Bytes) -> Result<(), Memory>
    ensures { OnOk result (out.new ≡ out.old ++ 32 ∷ landing_word how.now) }
{
    match how {
        Landing::Direct(_) => out.append(b" head"),
        Landing::Fork(id) => write_number(b" f", *id, out),
    }
}

/// Appends two numbers, each after its label, and a line feed.
fn write_two(
    label: &[u8],
    number: u64,
    next_label: &[u8],
    next: u64,
    out: &mut Bytes,
) -> Result<(), Memory>
    ensures { OnOk result (out.new ≡ out.old ++ (label.now ++ decimal number ++ next_label.now ++ decimal next ++ 10 ∷ [])) }
{
    write_number(label, number, out)?;
    write_number(next_label, next, out)?;
    out.push(b'\n')
}
