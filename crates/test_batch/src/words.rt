// Changes by the numbers of their keys, in tables, and what a batch has of them.
use jf_path::{Key, Memory};
use jf_split::{Batch, BatchFault};
use std::alloc::Global;

pub(crate) fn key(n: u32) -> Key {
    let mut key = [0; 32];
    let [a, b, c, d] = n.to_be_bytes();
    key[0] = a;
    key[1] = b;
    key[30] = c;
    key[31] = d;
    key
}

// A key by its number, and the value put at it, at most 4,096 bytes, or `None` if it is to be removed.
pub(crate) type Word = (u32, Option<&'static [u8]>);

// What a batch has of a key: the key's last byte, and the first byte of its value or `None`.
pub(crate) type ListedChange = (u8, Option<u8>);

fn batch_list(alloc: Global, batch: &Batch) -> Result<Vec<ListedChange>, Memory> {
    let mut listed = Vec::new(alloc);
    for (key, value) in batch.as_slice() {
        let first = match value {
            Some(bytes) => bytes.as_slice().first().copied(),
            None => None,
        };
        listed.push((key[31], first))?;
    }
    Ok(listed)
}

// Whether a batch tells this.
pub(crate) fn tells(
    alloc: Global,
    batch: &Batch,
    expected: &[ListedChange],
) -> Result<bool, Memory> {
    Ok(batch_list(alloc, batch)?.as_slice() == expected)
}

// The same changes in each order.
pub(crate) const ORDERS: &[&[Word]] = &[
    &[(1, Some(b"x")), (2, None), (3, Some(b"x"))],
    &[(1, Some(b"x")), (3, Some(b"x")), (2, None)],
    &[(2, None), (1, Some(b"x")), (3, Some(b"x"))],
    &[(2, None), (3, Some(b"x")), (1, Some(b"x"))],
    &[(3, Some(b"x")), (1, Some(b"x")), (2, None)],
    &[(3, Some(b"x")), (2, None), (1, Some(b"x"))],
];

// What the batch has after each.
pub(crate) const SORTED: &[ListedChange] = &[(1, Some(b'x')), (2, None), (3, Some(b'x'))];

// Changes made one after another, and what the batch has then.
pub(crate) const SAID: &[(&[Word], &[ListedChange])] = &[
    (
        &[(1, Some(b"a")), (2, Some(b"b")), (1, Some(b"c")), (2, None)],
        &[(1, Some(b'c')), (2, None)],
    ),
    (&[(2, Some(b"d"))], &[(1, Some(b'c')), (2, Some(b'd'))]),
];

// What is taken and what is refused beside 10,000 keys. Those of 7,919 and of 0 are among them, and not that of 10,008.
pub(crate) const AT_THE_LIMIT: &[(Word, Result<(), BatchFault>)] = &[
    ((10_008, Some(b"new")), Err(BatchFault::Full)),
    ((10_008, None), Err(BatchFault::Full)),
    ((7_919, Some(b"second")), Ok(())),
    ((0, None), Ok(())),
];
