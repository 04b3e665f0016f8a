// Which lines are whose, and what sessions write that land, read and retire side by side. The roots are those of plain maps, from
// Python's `hashlib`.
use crate::serving::{Row, are_served};
use jf_play::play::is_answered;
use std::test::Fail;

// Inputs whose text doesn't depend on the order in which sessions are answered.
const CUTS: &[Row] = &[
    ("", &["session\nledger 0\n"]),
    ("session", &["session\nledger 0\n"]),
    ("session\n", &["session\nledger 0\n"]),
    ("session\nsession", &["session\nsession\nledger 0\n"]),
    ("\n", &["session\n0 no syntax\nledger 0\n"]),
    (
        "\nsession\n",
        &["session\n0 no syntax\nsession\nledger 0\n"],
    ),
    (
        "session\n\nsession\n\n\n",
        &["session\n0 no syntax\nsession\n0 no syntax\n0 no syntax\nledger 0\n"],
    ),
    // The lines before the first `session` are those of session 0. Each session has a batch of its own.
    (
        "put 61 =31\nput 62 =32\nsession\nput 63 =33\nsession\nsession\nget p0 61",
        &[
            "session\n0 ok pending 1\n0 ok pending 2\nsession\n0 ok pending 1\nsession\nsession\n0 no nopin\nledger 0\n",
        ],
    ),
    // No other line begins a session.
    (
        "session\nsession \n session\nSession\nsessions\nsession x\nsession\r\n",
        &[
            "session\n0 no syntax\n0 no syntax\n0 no syntax\n0 no syntax\n0 no syntax\n0 no syntax\nledger 0\n",
        ],
    ),
];

#[test]
fn a_line_session_begins_a_session(rt: HostRuntime) -> Result<(), Fail> {
    are_served(&rt, rt.alloc(), CUTS)
}

#[test]
fn session_is_no_line_of_a_run(rt: HostRuntime) -> Result<(), Fail> {
    let want = b"0 no syntax\n0 ok pending 1\n0 no syntax\n";
    is_answered(&rt, rt.alloc(), b"session\nput 61 =31\nsession\n", want)
}

// Inputs whose sessions may be answered in several orders.
const ORDERS: &[Row] = &[
    // Either session lands first, and the other one before or after its `root`.
    (
        "session\nput 61 =31\ncommit\nroot head\nsession\nput 62 =32\ncommit\nroot head\n",
        &[
            "session\n0 ok pending 1\n1 ok commit 1 R\n1 ok root R\n\
             session\n0 ok pending 1\n2 ok commit 2 P\n2 ok root P\n\
             ledger 2\nlanded 0 1 R head\nlanded 1 2 P head\n",
            "session\n0 ok pending 1\n1 ok commit 1 R\n2 ok root P\n\
             session\n0 ok pending 1\n2 ok commit 2 P\n2 ok root P\n\
             ledger 2\nlanded 0 1 R head\nlanded 1 2 P head\n",
            "session\n0 ok pending 1\n2 ok commit 2 P\n2 ok root P\n\
             session\n0 ok pending 1\n1 ok commit 1 523314ab33c912d434792b42083d03c32d7e90b536b35c355a01ad0bb7925da2\n1 ok root 523314ab33c912d434792b42083d03c32d7e90b536b35c355a01ad0bb7925da2\n\
             ledger 2\nlanded 1 1 523314ab33c912d434792b42083d03c32d7e90b536b35c355a01ad0bb7925da2 head\nlanded 0 2 P head\n",
            "session\n0 ok pending 1\n2 ok commit 2 P\n2 ok root P\n\
             session\n0 ok pending 1\n1 ok commit 1 523314ab33c912d434792b42083d03c32d7e90b536b35c355a01ad0bb7925da2\n2 ok root P\n\
             ledger 2\nlanded 1 1 523314ab33c912d434792b42083d03c32d7e90b536b35c355a01ad0bb7925da2 head\nlanded 0 2 P head\n",
        ],
    ),
    // A fork can be read by another session as soon as it is made.
    (
        "fork head\nsession\nget f0 61\n",
        &[
            "session\n1 ok fork f0 E\nsession\n0 no unknown\nledger 1\nmade 0 f0 head E\n",
            "session\n1 ok fork f0 E\nsession\n1 ok none\nledger 1\nmade 0 f0 head E\n",
        ],
    ),
];

#[test]
fn sessions_are_answered_in_one_order(rt: HostRuntime) -> Result<(), Fail> {
    are_served(&rt, rt.alloc(), ORDERS)
}

// One session makes each sort of entry, as session 0 and as session 1. The lines of the other ask nothing of the store, so that
// the text is one.
const OWNERS: &[Row] = &[
    (
        "put 61 =31\ncommit\nput 62 =32\nfork head\nfork f0\ndrop f1\nland f0\nprune 1\ncompact\n\
         session\nput 61 =31\nget p0 61\nunpin 7\nwait\n",
        &[
            "session\n\
           0 ok pending 1\n1 ok commit 1 R\n1 ok pending 1\n2 ok fork f0 P\n3 ok fork f1 P\n4 ok drop 1\n5 ok land 2 P\n6 ok prune 1 1\n7 ok compact 2\n\
           session\n0 ok pending 1\n0 no nopin\n0 no nopin\n0 no syntax\n\
           ledger 7\nlanded 0 1 R head\nmade 0 f0 head P\nmade 0 f1 f0 P\ndropped 0 f1\nlanded 0 2 P f0\nretired 0 1 1\ncompacted 0 2\n",
        ],
    ),
    (
        "put 61 =31\nget p0 61\nunpin 7\nwait\n\
         session\nput 61 =31\ncommit\nput 62 =32\nfork head\nfork f0\ndrop f1\nland f0\nprune 1\ncompact\n",
        &[
            "session\n0 ok pending 1\n0 no nopin\n0 no nopin\n0 no syntax\n\
           session\n\
           0 ok pending 1\n1 ok commit 1 R\n1 ok pending 1\n2 ok fork f0 P\n3 ok fork f1 P\n4 ok drop 1\n5 ok land 2 P\n6 ok prune 1 1\n7 ok compact 2\n\
           ledger 7\nlanded 1 1 R head\nmade 1 f0 head P\nmade 1 f1 f0 P\ndropped 1 f1\nlanded 1 2 P f0\nretired 1 1 1\ncompacted 1 2\n",
        ],
    ),
];

#[test]
fn the_ledger_names_the_owner_of_each_entry(rt: HostRuntime) -> Result<(), Fail> {
    are_served(&rt, rt.alloc(), OWNERS)
}
