// The calls as C makes them. The map has `1` at `a` and `2` at `b`, as in docs/FORMATS.md, "Chunk blocks"; its hashes are from
// outside, by Python's hashlib.
use crate::ask::jelly_ask;
use crate::hashes::{jelly_key, jelly_leaf, jelly_pair, jelly_value};
use crate::judge::jelly_judge;
use crate::root::{Entry, jelly_root};
use jf_text::hash_of;
use std::test::Fail;

const ROOT: &str = "3e92b77a6f4a7dcc426f134b3415f3af7eb39e5c8ac7599c94f5a3c83fe07425";

const KEY: &str = "19d5f57c8e8b3cd760f853bb8d7900d68e10ef02674383de65a9b4d65e419b26";

const VALUE: &str = "f254fd9353abb55f60a0942b46382c2428aa019d102cd9985275c0fb42a8dbb3";

const OTHER_KEY: &str = "6fe4ff1a836fcb881bbe03ff848bb731a5584708153d9bc6dc1d6430579a6a12";

const OTHER_VALUE: &str = "e6d2f38b796ebe79778972da19dec75bafb856918cc62160e500cd243f8c5836";

const BESIDE: &str = "523314ab33c912d434792b42083d03c32d7e90b536b35c355a01ad0bb7925da2";

const NONE: &str = "6e340b9cffb37a989ca544e6bb780a2c78901d3fb33738768511a30617afa01d";

const REPLY: &str =
    "1 ok proof 2\nname 61\nclaim =31\nleaf 19d5f57c8e8b3cd760f853bb8d7900d68e10ef02674383de65a9b4d65e419b26 f254fd9353abb55f60a0942b46382c2428aa019d102cd9985275c0fb42a8dbb3\nside 523314ab33c912d434792b42083d03c32d7e90b536b35c355a01ad0bb7925da2\nside 6e340b9cffb37a989ca544e6bb780a2c78901d3fb33738768511a30617afa01d\n";

const ABSENT: &str =
    "1 ok proof 1\nname 63\nclaim none\nleaf none\nside 8712084faf62f584af05f6f2bef33996e510d294f77f2bf1d8d9832930e3e62a\n";

fn hash(digits: &str) -> Result<[u8; 32], Fail> {
    match hash_of(digits.as_bytes()) {
        Some(hash) => Ok(hash),
        None => Err(Fail::new("these are no 64 digits")),
    }
}

// A name, a reply, room, the number that is returned, and the length.
const ASKED: &[(&[u8], &str, usize, u32, usize)] = &[
    (b"a", REPLY, 3, 0, 1),
    (b"a", REPLY, 1, 0, 1),
    (b"a", REPLY, 0, 2, 1),
    (b"c", ABSENT, 3, 1, 99),
    (b"b", REPLY, 3, 21, 99),
    (b"a", "", 3, 22, 99),
];

// Whether a call answers so, and writes a value of one byte, or nothing.
fn is_answered(root: &[u8; 32], asked: &(&[u8], &str, usize, u32, usize)) -> bool {
    let (name, reply, room, number, length) = *asked;
    let mut value = [7; 3];
    let mut found = 99;
    if room > 3 {
        return false;
    }
    let answer = jelly_ask(root, name, reply.as_bytes(), &mut value[..room], &mut found);
    let written = if number == 0 { b'1' } else { 7 };
    answer == number && found == length && value == [written, 7, 7]
}

#[test]
fn a_name_is_looked_up() -> Result<(), Fail> {
    let root = hash(ROOT)?;
    for asked in ASKED {
        if !is_answered(&root, asked) {
            return Err(Fail::new("another answer"));
        }
    }
    Ok(())
}

// A value, the room of which holds nothing behind it, and the verdict.
const JUDGED: &[(&[u8], u32)] = &[(b"1", 0), (b"2", 2), (b"", 2)];

// The verdict on a value of `a`.
fn verdict(root: &[u8; 32], leaf: &([u8; 32], [u8; 32]), sides: &[[u8; 32]], value: &[u8]) -> u32 {
    jelly_judge(root, b"a", 1, value, 1, &leaf.0, &leaf.1, sides)
}

#[test]
fn a_claim_is_judged() -> Result<(), Fail> {
    let root = hash(ROOT)?;
    let leaf = (hash(KEY)?, hash(VALUE)?);
    let sides = [hash(BESIDE)?, hash(NONE)?];
    for (value, number) in JUDGED {
        if verdict(&root, &leaf, &sides, value) != *number {
            return Err(Fail::new("another verdict"));
        }
    }
    Ok(())
}

#[test]
fn absence_and_too_many_siblings_are_judged() -> Result<(), Fail> {
    let root = hash(ROOT)?;
    let none = hash(NONE)?;
    let many = [none; 257];
    let deep = jelly_judge(&root, b"a", 0, b"", 0, &none, &none, &many);
    let wrong = jelly_judge(&root, b"a", 0, b"", 0, &none, &none, &many[..256]);
    if deep == 1 && wrong == 4 {
        Ok(())
    } else {
        Err(Fail::new("another verdict"))
    }
}

fn entry(key: &str, value_hash: &str) -> Result<Entry, Fail> {
    Ok(Entry {
        key: hash(key)?,
        value_hash: hash(value_hash)?,
    })
}

#[test]
fn entries_have_a_root() -> Result<(), Fail> {
    let entries = [entry(KEY, VALUE)?, entry(OTHER_KEY, OTHER_VALUE)?];
    let mut root = [0; 32];
    if jelly_root(&entries, &mut root) != 0 || root != hash(ROOT)? {
        return Err(Fail::new("another root"));
    }
    if jelly_root(&[], &mut root) != 0 || root != hash(NONE)? {
        return Err(Fail::new("another root of no entry"));
    }
    Ok(())
}

#[test]
fn entries_out_of_order_have_none() -> Result<(), Fail> {
    let entries = [entry(OTHER_KEY, OTHER_VALUE)?, entry(KEY, VALUE)?];
    let twice = [entry(KEY, VALUE)?, entry(KEY, OTHER_VALUE)?];
    let mut root = [7; 32];
    if jelly_root(&entries, &mut root) == 1
        && jelly_root(&twice, &mut root) == 1
        && root == [7; 32]
    {
        Ok(())
    } else {
        Err(Fail::new("a root was written"))
    }
}

#[test]
fn hashes_are_those_of_the_format() -> Result<(), Fail> {
    let mut key = [0; 32];
    let mut value = [0; 32];
    let mut top = [0; 32];
    let mut pair = [0; 32];
    jelly_key(b"b", &mut key);
    jelly_value(b"2", &mut value);
    jelly_leaf(&key, &value, &mut top);
    if key != hash(OTHER_KEY)? || value != hash(OTHER_VALUE)? || top != hash(BESIDE)? {
        return Err(Fail::new("another hash"));
    }
    jelly_pair(
        &hash("9bb72c39f13d2b512ea34eae99a28f6d807a134ab125e89172310c6f6ea72f8f")?,
        &top,
        &mut pair,
    );
    if pair == hash("8712084faf62f584af05f6f2bef33996e510d294f77f2bf1d8d9832930e3e62a")? {
        Ok(())
    } else {
        Err(Fail::new("another pair"))
    }
}
