// A name looked up in a store's reply.
ghost use Rattle.std.specs.Prelude.{◌≡◌, List, ℕ, Some, length};
ghost use Rattle.jf_text.specs.Words.{unhex};
ghost use Rattle.jf_ask.specs.Lookups.{lookup, lookup_of};
ghost use Rattle.jelly.specs.Answers.{LookupResult, IsAnswer, value_number, filled_room, IsSoundAsk, IsSoundRoom, IsFairAsk};

use jf_ask::{Lookup, look_up, unhexed_count};

// Added to the number of why nothing is shown.
const REFUSED: u32 = 16;

/// Looks a name up in a store's reply to `prove` under the root of a version, which has to come from elsewhere than the
/// reply (docs/FORMATS.md, Proof blocks). 0: the name has a value, the first `value_length` bytes of `value`. 1: it has none. 2:
/// it has a value, and `value` has less room than its `value_length` bytes. 17 to 22: nothing is shown, and 16 less is the number
/// why: that of the check of the claim that fails, 1 to 4; 5, the block is on another name; 6, the reply isn't one block of
/// at most 256 siblings, with nothing after it. But for 0 `value` is unchanged, and but for 0 and 2 `value_length` is.
#[unsafe(no_mangle)]
pub extern "C" fn jelly_ask(
    root: &[u8; 32],
    name: &[u8],
    reply: &[u8],
    value: &mut [u8],
    value_length: &mut usize,
) -> u32
    // The result, the room and the length are those of what the reply shows of the name.
    ensures answer { IsAnswer (lookup root.now name.now reply.now) value.old value.new value_length.old value_length.new result }
    // What is answered under the root of a map is what the map says of the name, or two lists with one SHA-256 are at hand.
    ensures sound { IsSoundAsk root.now name.now reply.now value.new value_length.new result }
    // After 2, the map gives the name a value of this length, or two lists with one SHA-256 are at hand.
    ensures sound_room { IsSoundRoom root.now name.now reply.now value_length.new result }
    // A map's own reply to `prove` is answered as what the map says of the name.
    ensures fair { IsFairAsk root.now name.now reply.now value.old value.new value_length.old value_length.new result }
{
    answer(look_up(root, name, reply), value, value_length)
}

// Answers what was looked up.
fn answer(found: Lookup<'_>, value: &mut [u8], value_length: &mut usize) -> u32
    ensures { (shown : LookupResult) → lookup_of found.entry ≡ Some shown → IsAnswer shown value.old value.new value_length.old value_length.new result }
{
    match found {
        Lookup::Value(digits) => give(digits, value, value_length),
        Lookup::Absent => 1,
        Lookup::Refused(why) => REFUSED + u32::from(why.number()),
    }
}

// Writes the bytes of digits to the front of `out`, if there is room for them, and their number to `value_length`.
fn give(digits: &[u8], out: &mut [u8], value_length: &mut usize) -> u32
    ensures number { (v : List ℕ) → unhex digits.now ≡ Some v → result ≡ value_number out.old v }
    ensures value { (v : List ℕ) → unhex digits.now ≡ Some v → out.new ≡ filled_room out.old v }
    ensures length { (v : List ℕ) → unhex digits.now ≡ Some v → value_length.new ≡ length v }
{
    let count = digits.len() / 2;
    *value_length = count;
    if out.len() < count {
        return 2;
    }
    let _ = unhexed_count(digits, out);
    0
}
