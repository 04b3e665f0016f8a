// Changes are gathered in any order, up to the limits of a batch, and are made a batch in the order of their keys.
use crate::words::{self, AT_THE_LIMIT, ListedChange, ORDERS, SAID, SORTED, Word, key};
use jf_path::{Memory, SharedBytes};
use jf_split::{BatchFault, Pending};
use std::alloc::Global;
use std::test::Fail;

fn gather(alloc: Global, pending: &mut Pending, word: &Word) -> Result<(), BatchFault> {
    match word {
        (n, Some(value)) => {
            let value = SharedBytes::copy_of(alloc, &value[..value.len().min(4_096)])?;
            pending.put(alloc, &key(*n), value)
        }
        (n, None) => pending.del(alloc, &key(*n)),
    }
}

fn gather_all(alloc: Global, pending: &mut Pending, words: &[Word]) -> Result<(), BatchFault> {
    for word in words {
        gather(alloc, pending, word)?;
    }
    Ok(())
}

// Whether the batch of what is pending tells this.
fn tells(alloc: Global, pending: &Pending, expected: &[ListedChange]) -> Result<bool, Memory> {
    let batch = pending.batch(alloc)?;
    words::tells(alloc, &batch, expected)
}

// Gathers these words alone: what was pending before is dropped.
fn comes_out_sorted(alloc: Global, pending: &mut Pending, words: &[Word]) -> Result<bool, Fail> {
    pending.clear();
    gather_all(alloc, pending, words)?;
    Ok(tells(alloc, pending, SORTED)?)
}

#[test]
fn words_in_any_order_come_out_sorted(rt: HostRuntime) -> Result<(), Fail> {
    let mut pending = Pending::new(rt.alloc());
    for order in ORDERS {
        assert!(rt;
            comes_out_sorted(rt.alloc(), &mut pending, order)?,
            "{order:?}"
        );
    }
    Ok(())
}

fn tells_after(
    alloc: Global,
    pending: &mut Pending,
    words: &[Word],
    expected: &[ListedChange],
) -> Result<bool, Fail> {
    gather_all(alloc, pending, words)?;
    Ok(tells(alloc, pending, expected)? && pending.len() == 2)
}

#[test]
fn the_last_word_on_a_key_stands(rt: HostRuntime) -> Result<(), Fail> {
    let mut pending = Pending::new(rt.alloc());
    for (words, expected) in SAID {
        assert!(rt; tells_after(rt.alloc(), &mut pending, words, expected)?);
    }
    Ok(())
}

fn pending_of_10_000(alloc: Global) -> Result<Pending, BatchFault> {
    let mut pending = Pending::new(alloc);
    for n in 0..10_000 {
        let value = SharedBytes::copy_of(alloc, b"first")?;
        pending.put(alloc, &key(n * 7_919 % 10_007), value)?;
    }
    Ok(pending)
}

fn takes(
    alloc: Global,
    pending: &mut Pending,
    word: &Word,
    expected: &Result<(), BatchFault>,
) -> bool {
    gather(alloc, pending, word) == *expected && pending.len() == 10_000
}

#[test]
fn ten_thousand_keys_are_gathered_and_no_more(rt: HostRuntime) -> Result<(), Fail> {
    let mut pending = pending_of_10_000(rt.alloc())?;
    for (word, expected) in AT_THE_LIMIT {
        assert!(rt; takes(rt.alloc(), &mut pending, word, expected), "{word:?}");
    }
    assert!(rt; pending.batch(rt.alloc())?.len() == 10_000);
    Ok(())
}
