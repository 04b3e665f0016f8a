// Proofs of names in the head and in old versions, with values from Python's `hashlib`.
use jf_play::play::is_answered;
use std::test::Fail;

// Maps of no entry; of one; of two, whose keys agree in one bit; of six, of which two agree in the first nibble; and of
// two that agree in three nibbles.
const ROWS: &[(&str, &str)] = &[
    (
        "prove head 61\n",
        "0 ok proof 0\n\
         name 61\n\
         claim none\n\
         leaf none\n",
    ),
    (
        "put 61 =31\n\
         commit\n\
         prove head 61\n\
         prove v1 62\n\
         prove v0 61\n\
         prove v2 61\n",
        "0 ok pending 1\n\
         1 ok commit 1 9bb72c39f13d2b512ea34eae99a28f6d807a134ab125e89172310c6f6ea72f8f\n\
         1 ok proof 0\n\
         name 61\n\
         claim =31\n\
         leaf 19d5f57c8e8b3cd760f853bb8d7900d68e10ef02674383de65a9b4d65e419b26 f254fd9353abb55f60a0942b46382c2428aa019d102cd9985275c0fb42a8dbb3\n\
         1 ok proof 0\n\
         name 62\n\
         claim none\n\
         leaf 19d5f57c8e8b3cd760f853bb8d7900d68e10ef02674383de65a9b4d65e419b26 f254fd9353abb55f60a0942b46382c2428aa019d102cd9985275c0fb42a8dbb3\n\
         1 ok proof 0\n\
         name 61\n\
         claim none\n\
         leaf none\n\
         1 no future 1\n",
    ),
    (
        "put 61 =31\n\
         put 62 =32\n\
         commit\n\
         prove head 61\n\
         prove head 63\n\
         prove head 7a\n",
        "0 ok pending 1\n\
         0 ok pending 2\n\
         1 ok commit 1 3e92b77a6f4a7dcc426f134b3415f3af7eb39e5c8ac7599c94f5a3c83fe07425\n\
         1 ok proof 2\n\
         name 61\n\
         claim =31\n\
         leaf 19d5f57c8e8b3cd760f853bb8d7900d68e10ef02674383de65a9b4d65e419b26 f254fd9353abb55f60a0942b46382c2428aa019d102cd9985275c0fb42a8dbb3\n\
         side 523314ab33c912d434792b42083d03c32d7e90b536b35c355a01ad0bb7925da2\n\
         side 6e340b9cffb37a989ca544e6bb780a2c78901d3fb33738768511a30617afa01d\n\
         1 ok proof 1\n\
         name 63\n\
         claim none\n\
         leaf none\n\
         side 8712084faf62f584af05f6f2bef33996e510d294f77f2bf1d8d9832930e3e62a\n\
         1 ok proof 2\n\
         name 7a\n\
         claim none\n\
         leaf 19d5f57c8e8b3cd760f853bb8d7900d68e10ef02674383de65a9b4d65e419b26 f254fd9353abb55f60a0942b46382c2428aa019d102cd9985275c0fb42a8dbb3\n\
         side 523314ab33c912d434792b42083d03c32d7e90b536b35c355a01ad0bb7925da2\n\
         side 6e340b9cffb37a989ca544e6bb780a2c78901d3fb33738768511a30617afa01d\n",
    ),
    (
        "put 61 =31\n\
         put 62 =31\n\
         put 63 =31\n\
         put 64 =31\n\
         put 65 =31\n\
         put 66 =31\n\
         commit\n\
         prove head 64\n\
         prove head 63\n",
        "0 ok pending 1\n\
         0 ok pending 2\n\
         0 ok pending 3\n\
         0 ok pending 4\n\
         0 ok pending 5\n\
         0 ok pending 6\n\
         1 ok commit 1 6c9ccb50129259c61b0292b566b5a6c2a3a9e4df2b046bfe879e14741b47e853\n\
         1 ok proof 5\n\
         name 64\n\
         claim =31\n\
         leaf 015cbd08524dfe93e53e4947992eda31976b55b2358d4515eaee3cf98a0f07f3 f254fd9353abb55f60a0942b46382c2428aa019d102cd9985275c0fb42a8dbb3\n\
         side 32c65459d4ee06cd9d2bc2f486ef7e64d3d49c0c8efdaf230f1b89997692cc01\n\
         side 9bb72c39f13d2b512ea34eae99a28f6d807a134ab125e89172310c6f6ea72f8f\n\
         side 6e340b9cffb37a989ca544e6bb780a2c78901d3fb33738768511a30617afa01d\n\
         side e4b3d05618b1fff6b104f8ffbd03c6962676ef69489d07c2ab09bbb48e13e90f\n\
         side f57649c4fe8b214f152db04a20361337d5d3ea54f6154a20d0bb6f04e7f96ef9\n\
         1 ok proof 3\n\
         name 63\n\
         claim =31\n\
         leaf c7366da1307f33b7b9361dbd9b0988cf19b0cf4857db81c32d832f656dc5022a f254fd9353abb55f60a0942b46382c2428aa019d102cd9985275c0fb42a8dbb3\n\
         side 85929f18c18764bd7b5af0caecf39928b15a9f040f8c614025875536c4e8b7d6\n\
         side 6e340b9cffb37a989ca544e6bb780a2c78901d3fb33738768511a30617afa01d\n\
         side 701aeac8d0eec38716527ce839927f965c018d071cdf137bb33e035e6d0c97dd\n",
    ),
    (
        "put 6e =31\n\
         put 76 =\n\
         commit\n\
         prove head 76\n\
         prove v1 71\n",
        "0 ok pending 1\n\
         0 ok pending 2\n\
         1 ok commit 1 a38a76d58cfe0339a130e620849dc62e2387414e25094892d5c620e748ef1fdd\n\
         1 ok proof 13\n\
         name 76\n\
         claim =\n\
         leaf edb5f4438fc835572e6cc4f7710f9f8133fc9dea86991a89978c7f90d9f380d4 084fed08b978af4d7d196a7446a86b58009e636b611db16211b65a9aadff29c5\n\
         side 5c4c705f3ca0c485e7949ac577648f55fe813d9f90d02a7f185c7346a9e69949\n\
         side 6e340b9cffb37a989ca544e6bb780a2c78901d3fb33738768511a30617afa01d\nside 6e340b9cffb37a989ca544e6bb780a2c78901d3fb33738768511a30617afa01d\nside 6e340b9cffb37a989ca544e6bb780a2c78901d3fb33738768511a30617afa01d\n\
         side 6e340b9cffb37a989ca544e6bb780a2c78901d3fb33738768511a30617afa01d\nside 6e340b9cffb37a989ca544e6bb780a2c78901d3fb33738768511a30617afa01d\nside 6e340b9cffb37a989ca544e6bb780a2c78901d3fb33738768511a30617afa01d\n\
         side 6e340b9cffb37a989ca544e6bb780a2c78901d3fb33738768511a30617afa01d\nside 6e340b9cffb37a989ca544e6bb780a2c78901d3fb33738768511a30617afa01d\nside 6e340b9cffb37a989ca544e6bb780a2c78901d3fb33738768511a30617afa01d\n\
         side 6e340b9cffb37a989ca544e6bb780a2c78901d3fb33738768511a30617afa01d\nside 6e340b9cffb37a989ca544e6bb780a2c78901d3fb33738768511a30617afa01d\nside 6e340b9cffb37a989ca544e6bb780a2c78901d3fb33738768511a30617afa01d\n\
         1 ok proof 9\n\
         name 71\n\
         claim none\n\
         leaf none\n\
         side 1847933ff49f51964368075c9d405fcc90544d653579f99d90a9911cfa5a6472\n\
         side 6e340b9cffb37a989ca544e6bb780a2c78901d3fb33738768511a30617afa01d\n\
         side 6e340b9cffb37a989ca544e6bb780a2c78901d3fb33738768511a30617afa01d\n\
         side 6e340b9cffb37a989ca544e6bb780a2c78901d3fb33738768511a30617afa01d\n\
         side 6e340b9cffb37a989ca544e6bb780a2c78901d3fb33738768511a30617afa01d\n\
         side 6e340b9cffb37a989ca544e6bb780a2c78901d3fb33738768511a30617afa01d\n\
         side 6e340b9cffb37a989ca544e6bb780a2c78901d3fb33738768511a30617afa01d\n\
         side 6e340b9cffb37a989ca544e6bb780a2c78901d3fb33738768511a30617afa01d\n\
         side 6e340b9cffb37a989ca544e6bb780a2c78901d3fb33738768511a30617afa01d\n",
    ),
];

#[test]
fn names_are_proved(rt: HostRuntime) -> Result<(), Fail> {
    let alloc = rt.alloc();
    for (script, want) in ROWS {
        is_answered(&rt, alloc, script.as_bytes(), want.as_bytes())?;
    }
    Ok(())
}
