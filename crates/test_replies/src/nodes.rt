// Roots of maps whose keys differ at the first nibble or at the second, from Python's `hashlib`. The keys of the names
// 61 and 69 agree in the first nibble only; the key of 62 differs from both in the first.
use jf_play::play::is_answered;
use std::test::Fail;

// Two keys that agree in a nibble, of which one is put again; one of two is removed; a commit of nothing; three keys,
// which are all removed.
const ROWS: &[(&str, &str)] = &[
    (
        "put 61 =01\n\
         put 69 =02\n\
         commit\n\
         root v1\n\
         put 61 =01\n\
         commit\n\
         root v2\n",
        "0 ok pending 1\n\
         0 ok pending 2\n\
         1 ok commit 1 81f2437253a9c24ff7f780a610d61980288f33450bd4fabecd40c239e018b746\n\
         1 ok root 81f2437253a9c24ff7f780a610d61980288f33450bd4fabecd40c239e018b746\n\
         1 ok pending 1\n\
         2 ok commit 2 81f2437253a9c24ff7f780a610d61980288f33450bd4fabecd40c239e018b746\n\
         2 ok root 81f2437253a9c24ff7f780a610d61980288f33450bd4fabecd40c239e018b746\n",
    ),
    (
        "put 61 =01\n\
         put 62 =02\n\
         commit\n\
         del 62\n\
         commit\n\
         root v1\n\
         root v2\n\
         get head 62\n",
        "0 ok pending 1\n\
         0 ok pending 2\n\
         1 ok commit 1 3b2dc3a7e43b12da08aec6c1647a85c56d1ff4080a2c08821aa4b3b064aafbcd\n\
         1 ok pending 1\n\
         2 ok commit 2 8a412606c683a590eee20bb68bede209e63f414ed7a2399fb4a84d85178c81eb\n\
         2 ok root 3b2dc3a7e43b12da08aec6c1647a85c56d1ff4080a2c08821aa4b3b064aafbcd\n\
         2 ok root 8a412606c683a590eee20bb68bede209e63f414ed7a2399fb4a84d85178c81eb\n\
         2 ok none\n",
    ),
    (
        "put 61 =31\n\
         commit\n\
         commit\n\
         root v1\n\
         root v2\n",
        "0 ok pending 1\n\
         1 ok commit 1 9bb72c39f13d2b512ea34eae99a28f6d807a134ab125e89172310c6f6ea72f8f\n\
         2 ok commit 2 9bb72c39f13d2b512ea34eae99a28f6d807a134ab125e89172310c6f6ea72f8f\n\
         2 ok root 9bb72c39f13d2b512ea34eae99a28f6d807a134ab125e89172310c6f6ea72f8f\n\
         2 ok root 9bb72c39f13d2b512ea34eae99a28f6d807a134ab125e89172310c6f6ea72f8f\n",
    ),
    (
        "put 61 =01\n\
         put 69 =02\n\
         commit\n\
         put 62 =02\n\
         put 69 =03\n\
         commit\n\
         del 69\n\
         commit\n\
         del 61\n\
         del 62\n\
         commit\n\
         root v1\n",
        "0 ok pending 1\n\
         0 ok pending 2\n\
         1 ok commit 1 81f2437253a9c24ff7f780a610d61980288f33450bd4fabecd40c239e018b746\n\
         1 ok pending 1\n\
         1 ok pending 2\n\
         2 ok commit 2 0587de2f676ef3c9a92d46967d674d22efaa842f20139a098cdefa62e7c2e966\n\
         2 ok pending 1\n\
         3 ok commit 3 3b2dc3a7e43b12da08aec6c1647a85c56d1ff4080a2c08821aa4b3b064aafbcd\n\
         3 ok pending 1\n\
         3 ok pending 2\n\
         4 ok commit 4 6e340b9cffb37a989ca544e6bb780a2c78901d3fb33738768511a30617afa01d\n\
         4 ok root 81f2437253a9c24ff7f780a610d61980288f33450bd4fabecd40c239e018b746\n",
    ),
];

#[test]
fn nodes_come_and_go(rt: HostRuntime) -> Result<(), Fail> {
    let alloc = rt.alloc();
    for (script, want) in ROWS {
        is_answered(&rt, alloc, script.as_bytes(), want.as_bytes())?;
    }
    Ok(())
}
