// Batches take changes up to their limits, and have them in the order of their keys.
use crate::words::{AT_THE_LIMIT, ListedChange, ORDERS, SAID, SORTED, Word, key, tells};
use jf_path::Memory;
use jf_split::{Batch, BatchFault, BatchList};
use std::alloc::Global;
use std::test::Fail;

fn say(alloc: Global, batch: &mut Batch, word: &Word) -> Result<(), BatchFault> {
    match word {
        (n, Some(value)) => batch.put(alloc, &key(*n), &value[..value.len().min(4_096)]),
        (n, None) => batch.del(alloc, &key(*n)),
    }
}

fn say_all(alloc: Global, batch: &mut Batch, words: &[Word]) -> Result<(), BatchFault> {
    for word in words {
        say(alloc, batch, word)?;
    }
    Ok(())
}

fn batch_of(alloc: Global, words: &[Word]) -> Result<Batch, BatchFault> {
    let mut batch = Batch::new(alloc);
    say_all(alloc, &mut batch, words)?;
    Ok(batch)
}

fn comes_out_sorted(alloc: Global, words: &[Word]) -> Result<bool, Fail> {
    let batch = batch_of(alloc, words)?;
    Ok(tells(alloc, &batch, SORTED)?)
}

#[test]
fn words_in_any_order_come_out_sorted(rt: HostRuntime) -> Result<(), Fail> {
    for order in ORDERS {
        assert!(rt; comes_out_sorted(rt.alloc(), order)?, "{order:?}");
    }
    Ok(())
}

fn tells_after(
    alloc: Global,
    batch: &mut Batch,
    words: &[Word],
    expected: &[ListedChange],
) -> Result<bool, Fail> {
    say_all(alloc, batch, words)?;
    Ok(tells(alloc, batch, expected)? && batch.len() == 2)
}

#[test]
fn the_last_word_on_a_key_stands(rt: HostRuntime) -> Result<(), Fail> {
    let mut batch = Batch::new(rt.alloc());
    for (words, expected) in SAID {
        assert!(rt; tells_after(rt.alloc(), &mut batch, words, expected)?);
    }
    Ok(())
}

fn batch_of_10_000(alloc: Global) -> Result<Batch, BatchFault> {
    let mut batch = Batch::new(alloc);
    for n in 0..10_000 {
        batch.put(alloc, &key(n * 7_919 % 10_007), b"first")?;
    }
    Ok(batch)
}

fn takes(alloc: Global, batch: &mut Batch, word: &Word, expected: &Result<(), BatchFault>) -> bool {
    say(alloc, batch, word) == *expected && batch.len() == 10_000
}

#[test]
fn ten_thousand_keys_are_taken_and_no_more(rt: HostRuntime) -> Result<(), Fail> {
    let mut batch = batch_of_10_000(rt.alloc())?;
    assert!(rt; batch.len() == 10_000);
    for (word, expected) in AT_THE_LIMIT {
        assert!(rt; takes(rt.alloc(), &mut batch, word, expected), "{word:?}");
    }
    Ok(())
}

// A batch of a value of 4,096 bytes and of a key to be removed.
fn batch_to_copy(alloc: Global) -> Result<Batch, BatchFault> {
    let mut batch = Batch::new(alloc);
    batch.put(alloc, &key(1), &[7; 4_096])?;
    batch.del(alloc, &key(2))?;
    Ok(batch)
}

#[test]
fn a_copy_is_the_batch_once_more(rt: HostRuntime) -> Result<(), Fail> {
    let batch = batch_to_copy(rt.alloc())?;
    let copy = batch.copy(rt.alloc())?;
    assert!(rt; tells(rt.alloc(), &copy, &[(1, Some(7)), (2, None)])?);
    Ok(())
}

// Batches of one key each, and what each has.
const LISTED: &[(&[Word], &[ListedChange])] = &[
    (&[(2, Some(b"x"))], &[(2, Some(b'x'))]),
    (&[(1, Some(b"x"))], &[(1, Some(b'x'))]),
];

fn list_of_two(alloc: Global) -> Result<BatchList, Fail> {
    let mut list = BatchList::new(alloc);
    for (words, _) in LISTED {
        let batch = batch_of(alloc, words)?;
        list.push(batch)?;
    }
    Ok(list)
}

fn tells_each(alloc: Global, list: &BatchList) -> Result<bool, Memory> {
    for (batch, (_, expected)) in list.as_slice().iter().zip(LISTED) {
        if !tells(alloc, batch, expected)? {
            return Ok(false);
        }
    }
    Ok(list.len() == 2)
}

#[test]
fn a_list_has_its_batches_in_order(rt: HostRuntime) -> Result<(), Fail> {
    let list = list_of_two(rt.alloc())?;
    assert!(rt; tells_each(rt.alloc(), &list)?);
    Ok(())
}
