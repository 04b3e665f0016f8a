// Roots of small maps, by Python's `hashlib`, and texts in which letters represent them.
use std::alloc::Global;
use std::test::Fail;

/// The root of the empty map.
pub const EMPTY: &str = "6e340b9cffb37a989ca544e6bb780a2c78901d3fb33738768511a30617afa01d";

/// The root of the map of `put 61 =31`.
pub const ONE: &str = "9bb72c39f13d2b512ea34eae99a28f6d807a134ab125e89172310c6f6ea72f8f";

const BLANK: &str = "fd2307270c401be83da0714a181eca80af07f330a43f98b4cb378a5abd422684";

const PAIR: &str = "3e92b77a6f4a7dcc426f134b3415f3af7eb39e5c8ac7599c94f5a3c83fe07425";

const OTHER: &str = "aa5647fd223dff48afb95db3b4b4b9db25f6244f59b3f1f7a0b03684552cb9ad";

const OTHER_PAIR: &str = "c3e41b40c8ba505813fe5d14d2f0fb281ef050bcd864b214c98564746236623d";

const BOTH_OTHER: &str = "eefcf9b105d7d02e5a1d9bff2664e0ca9b96376d452f31b6091710fa35852ef1";

const THREE: &str = "45ca5fd13d3c2aa30c53349d4c1da835de3e3fa0bbc51390419b0db5127f42dc";

// The root that a letter represents.
fn root_of(letter: u8) -> Option<&'static str> {
    match letter {
        b'E' => Some(EMPTY),
        b'R' => Some(ONE),
        b'B' => Some(BLANK),
        b'P' => Some(PAIR),
        b'S' => Some(OTHER),
        b'Q' => Some(OTHER_PAIR),
        b'T' => Some(BOTH_OTHER),
        b'W' => Some(THREE),
        _ => None,
    }
}

/// The text with roots in place of letters: E is the root of the empty map, R of `put 61 =31`, B of `put 61 =`, S of
/// `put 61 =32`; of two names, P of `put 61 =31` with `put 62 =32`, Q of `put 61 =31` with `put 62 =33`, T of `put 61 =32`
/// with `put 62 =33`; and W of `put 61 =31`, `put 62 =32` and `put 63 =33`.
pub fn with_roots(alloc: Global, text: &str) -> Result<Vec<u8>, Fail> {
    let mut whole = Vec::new(alloc);
    for byte in text.bytes() {
        match root_of(byte) {
            Some(root) => whole.extend_from_slice(root.as_bytes())?,
            None => whole.push(byte)?,
        }
    }
    Ok(whole)
}
