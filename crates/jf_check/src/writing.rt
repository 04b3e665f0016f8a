// The lines that tell what two files show.
ghost use Rattle.std.specs.Prelude.{◌≡◌, ◌∷◌, [], ◌++◌, IfOk, OnOk, Some};
ghost use Rattle.jf_text.specs.Words.{line_text, spaced_words};
ghost use Rattle.jf_disk.specs.declared.side.Side.TheVariants as side;
ghost use Rattle.jf_check.specs.Texts.{check_text, file_word, live_word, number_words, shown_words, store_words};

use crate::check::Check;
use crate::numbers::SideNumbers;
use crate::side_check::SideCheck;
use crate::store_check::StoreCheck;
use jf_disk::Side;
use jf_path::{Bytes, Memory};
use jf_text::write_number;
use std::alloc::Global;

// The lines of what two files show.
#[tactic(auto, unfolding(crate::specs::Texts::check_text))]
pub(crate) fn text_of(alloc: Global, check: &Check) -> Result<Bytes, Memory>
    ensures { IfOk result (λ text. text ≡ check_text check.now) }
{
    let mut out = Bytes::new(alloc);
    write_side(b"a.jf", &check.a, &mut out)?;
    write_side(b"b.jf", &check.b, &mut out)?;
    write_store(&check.store, &mut out)?;
    Ok(out)
}

// Appends the line of what a file of this name shows. If memory runs out, part of it may stand after the text, as in all
// functions here.
fn write_side(name: &[u8], check: &SideCheck, out: &mut Bytes) -> Result<(), Memory>
    ensures { OnOk result (out.new ≡ out.old ++ line_text (name.now ∷ shown_words check.now)) }
{
    out.append(name)?;
    write_shown(check, out)?;
    out.push(b'\n')
}

// Appends the words of what a file shows, with a space before each.
fn write_shown(check: &SideCheck, out: &mut Bytes) -> Result<(), Memory>
    ensures { OnOk result (out.new ≡ out.old ++ spaced_words (shown_words check.now)) }
{
    match check {
        SideCheck::Absent => out.append(b" absent"),
        SideCheck::Damaged { size, offset } => {
            write_number(b" size ", *size, out)?;
            write_number(b" damaged ", *offset, out)
        }
        SideCheck::Whole {
            size,
            numbers,
            records,
            behind,
        } => {
            write_number(b" size ", *size, out)?;
            write_numbers(numbers, out)?;
            write_number(b" records ", *records, out)?;
            write_number(b" behind ", *behind, out)
        }
    }
}

// Appends the words of the numbers, if there are any.
fn write_numbers(numbers: &Option<SideNumbers>, out: &mut Bytes) -> Result<(), Memory>
    ensures { OnOk result (out.new ≡ out.old ++ spaced_words (number_words numbers.now)) }
{
    let Some(numbers) = numbers else {
        return Ok(());
    };
    write_number(b" generation ", numbers.generation, out)?;
    write_number(b" base ", numbers.base, out)?;
    write_number(b" floor ", numbers.floor, out)?;
    write_number(b" head ", numbers.head, out)
}

// Appends the line of what both files represent.
fn write_store(check: &StoreCheck, out: &mut Bytes) -> Result<(), Memory>
    ensures { OnOk result (out.new ≡ out.old ++ line_text (store_words check.now)) }
{
    match check {
        StoreCheck::Damaged { side, offset } => {
            out.append(b"damaged ")?;
            out.append(live_word(Some(*side)))?;
            write_number(b" ", *offset, out)?;
        }
        StoreCheck::Sound {
            live,
            kept,
            checkpoint,
        } => {
            out.append(b"live ")?;
            out.append(live_word(*live))?;
            write_number(b" kept ", *kept, out)?;
            write_number(b" checkpoint ", *checkpoint, out)?;
        }
    }
    out.push(b'\n')
}

// The live side, by its letter.
fn live_word(live: Option<Side>) -> &'static [u8]
    ensures { result.now ≡ live_word live }
{
    match live {
        None => b"none",
        Some(Side::A) => b"a",
        Some(Side::B) => b"b",
    }
}
