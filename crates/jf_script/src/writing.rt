// A reply's line is the number of entries so far, the reply's words, and a line feed.
ghost use Rattle.std.specs.Prelude.{◌≡◌, ◌∷◌, ◌++◌, [], codes, decimal, OnOk, OnErr};
ghost use Rattle.hex.specs.Hex.{encode_lower};
ghost use Rattle.jf_text.specs.Words.{spaced_words, Extends};
ghost use Rattle.jf_script.specs.Replies.{reply_text, reply_words, refusal_words};

use crate::reply::{Refusal, Reply};
use jf_path::{Bytes, Memory};
use jf_text::{write_hex, write_number};

/// Appends the line of a reply: `seen`, the number of entries so far, the reply's words, and a line feed. If memory
/// runs out, the text is unchanged (docs/FORMATS.md, Replies).
pub fn write_reply(seen: u64, reply: &Reply, out: &mut Bytes) -> Result<(), Memory>
    ensures ok { OnOk result (out.new ≡ out.old ++ reply_text seen reply.now) }
    ensures err { OnErr result (out.new ≡ out.old) }
{
    let before = out.len();
    match write_line(seen, reply, out) {
        Ok(()) => Ok(()),
        Err(Memory) => {
            out.truncate(before);
            Err(Memory)
        }
    }
}

fn write_line(seen: u64, reply: &Reply, out: &mut Bytes) -> Result<(), Memory>
    ensures ok { OnOk result (out.new ≡ out.old ++ reply_text seen reply.now) }
    ensures err { OnErr result (Extends out.old out.new) }
{
    write_number(b"", seen, out)?;
    write_words(reply, out)?;
    out.push(b'\n')
}

/// Appends a reply's words, with a space before each.
fn write_words(reply: &Reply, out: &mut Bytes) -> Result<(), Memory>
    ensures ok { OnOk result (out.new ≡ out.old ++ spaced_words (reply_words reply.now)) }
    ensures err { OnErr result (Extends out.old out.new) }
{
    match reply {
        Reply::Pending { count } => write_number(b" ok pending ", *count, out),
        Reply::Commit { version, root } => write_rooted(b" ok commit ", *version, root, out),
        Reply::Fork { id, root } => write_rooted(b" ok fork f", *id, root, out),
        Reply::Land { version, root } => write_rooted(b" ok land ", *version, root, out),
        Reply::Drop { count } => write_number(b" ok drop ", *count, out),
        Reply::Value { value: None } => out.append(b" ok none"),
        Reply::Value { value: Some(value) } => write_hex(b" ok value =", value.as_slice(), out),
        Reply::Root { root } => write_hex(b" ok root ", root, out),
        Reply::Proof { siblings } => write_number(b" ok proof ", *siblings, out),
        Reply::Chunk {
            entries,
            depth,
            siblings,
        } => {
            write_number(b" ok chunk ", *entries, out)?;
            write_number(b" ", *depth, out)?;
            write_number(b" ", *siblings, out)
        }
        Reply::Count { count } => write_number(b" ok count ", *count, out),
        Reply::Nth { key, value } => {
            write_hex(b" ok nth ", key, out)?;
            write_hex(b" =", value.as_slice(), out)
        }
        Reply::Pin { place } => write_number(b" ok pin ", *place, out),
        Reply::Unpin { version } => write_number(b" ok unpin ", *version, out),
        Reply::Prune { bound, floor } => {
            write_number(b" ok prune ", *bound, out)?;
            write_number(b" ", *floor, out)
        }
        Reply::Compact { generation } => write_number(b" ok compact ", *generation, out),
        Reply::Status {
            base,
            floor,
            retired,
            head,
            kept,
            forks,
            generation,
        } => {
            write_bounds(*base, *floor, *retired, *head, out)?;
            write_sizes(*kept, *forks, *generation, out)
        }
        Reply::No(refusal) => {
            out.append(b" no")?;
            write_refusal(*refusal, out)
        }
    }
}

/// Appends the first half of the reply to `status`: the store's versions.
fn write_bounds(
    base: u64,
    floor: u64,
    retired: u64,
    head: u64,
    out: &mut Bytes,
) -> Result<(), Memory>
    ensures ok { OnOk result (out.new ≡ out.old ++ spaced_words (codes "ok status base" ∷ decimal base ∷ codes "floor" ∷ decimal floor ∷ codes "retired" ∷ decimal retired ∷ codes "head" ∷ decimal head ∷ [])) }
    ensures err { OnErr result (Extends out.old out.new) }
{
    write_number(b" ok status base ", base, out)?;
    write_number(b" floor ", floor, out)?;
    write_number(b" retired ", retired, out)?;
    write_number(b" head ", head, out)
}

/// Appends the other half of the reply to `status`.
fn write_sizes(kept: u64, forks: u64, generation: u64, out: &mut Bytes) -> Result<(), Memory>
    ensures ok { OnOk result (out.new ≡ out.old ++ spaced_words (codes "kept" ∷ decimal kept ∷ codes "forks" ∷ decimal forks ∷ codes "generation" ∷ decimal generation ∷ [])) }
    ensures err { OnErr result (Extends out.old out.new) }
{
    write_number(b" kept ", kept, out)?;
    write_number(b" forks ", forks, out)?;
    write_number(b" generation ", generation, out)
}

/// Appends a refusal's words, with a space before each.
fn write_refusal(refusal: Refusal, out: &mut Bytes) -> Result<(), Memory>
    ensures ok { OnOk result (out.new ≡ out.old ++ spaced_words (refusal_words refusal)) }
    ensures err { OnErr result (Extends out.old out.new) }
{
    match refusal {
        Refusal::Syntax => out.append(b" syntax"),
        Refusal::Long => out.append(b" long"),
        Refusal::Pending => out.append(b" pending"),
        Refusal::Unknown => out.append(b" unknown"),
        Refusal::Gone => out.append(b" gone"),
        Refusal::Keys(count) => write_number(b" keys ", count, out),
        Refusal::Future(head) => write_number(b" future ", head, out),
        Refusal::Retired(bound) => write_number(b" retired ", bound, out),
        Refusal::PinsFull => out.append(b" pinsfull"),
        Refusal::NoPin => out.append(b" nopin"),
        Refusal::ForksFull => out.append(b" forksfull"),
        Refusal::Range(count) => write_number(b" range ", count, out),
        Refusal::Last => out.append(b" last"),
    }
}

/// Appends a label, a number and a root.
fn write_rooted(label: &[u8], number: u64, root: &[u8; 32], out: &mut Bytes) -> Result<(), Memory>
    ensures ok { OnOk result (out.new ≡ out.old ++ (label.now ++ decimal number ++ 32 ∷ encode_lower root.now)) }
    ensures err { OnErr result (Extends out.old out.new) }
{
    write_number(label, number, out)?;
    write_hex(b" ", root, out)
}
