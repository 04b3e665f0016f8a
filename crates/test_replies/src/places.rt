// Entries by their places in the order of keys, and how many there are.
use jf_play::play::{is_answered, tells};
use std::alloc::Global;
use std::test::Fail;

// What a script shows, its lines, and their replies, where letters represent roots as in `with_roots`. The values are from a
// reference in Python that keeps whole maps, and its `hashlib`.
const ROWS: &[(&str, &str, &str)] = &[
    (
        "entries in the order of their keys",
        "put 61 =01\n\
         put 62 =02\n\
         commit\n\
         count head\n\
         nth head 0\n\
         nth head 1\n\
         nth head 2\n",
        "0 ok pending 1\n\
         0 ok pending 2\n\
         1 ok commit 1 3b2dc3a7e43b12da08aec6c1647a85c56d1ff4080a2c08821aa4b3b064aafbcd\n\
         1 ok count 2\n\
         1 ok nth 19d5f57c8e8b3cd760f853bb8d7900d68e10ef02674383de65a9b4d65e419b26 =01\n\
         1 ok nth 6fe4ff1a836fcb881bbe03ff848bb731a5584708153d9bc6dc1d6430579a6a12 =02\n\
         1 no range 2\n",
    ),
    (
        "no entry",
        "count head\n\
         nth head 0\n\
         count v0\n\
         nth v0 0\n\
         nth v0 18446744073709551615\n",
        "0 ok count 0\n\
         0 no range 0\n\
         0 ok count 0\n\
         0 no range 0\n\
         0 no range 0\n",
    ),
    (
        "each base",
        "put 61 =31\n\
         commit\n\
         put 62 =\n\
         commit\n\
         pin 1\n\
         del 61\n\
         commit\n\
         count v0\n\
         count v1\n\
         count v2\n\
         count v3\n\
         count head\n\
         count p0\n\
         nth v1 0\n\
         nth v1 1\n\
         nth v2 0\n\
         nth v2 1\n\
         nth v2 2\n\
         nth v3 0\n\
         nth head 0\n\
         nth p0 0\n\
         nth p0 1\n",
        "0 ok pending 1\n\
         1 ok commit 1 R\n\
         1 ok pending 1\n\
         2 ok commit 2 e3c01477f7d2984a9ec335e148503bd00c6c2d44b003a8a937b27b486e165149\n\
         2 ok pin 0\n\
         2 ok pending 1\n\
         3 ok commit 3 01f5ab8b3b0f377ba371d01623fc4395a09d69c750c4b5b29412c06384d93952\n\
         3 ok count 0\n\
         3 ok count 1\n\
         3 ok count 2\n\
         3 ok count 1\n\
         3 ok count 1\n\
         3 ok count 1\n\
         3 ok nth 19d5f57c8e8b3cd760f853bb8d7900d68e10ef02674383de65a9b4d65e419b26 =31\n\
         3 no range 1\n\
         3 ok nth 19d5f57c8e8b3cd760f853bb8d7900d68e10ef02674383de65a9b4d65e419b26 =31\n\
         3 ok nth 6fe4ff1a836fcb881bbe03ff848bb731a5584708153d9bc6dc1d6430579a6a12 =\n\
         3 no range 2\n\
         3 ok nth 6fe4ff1a836fcb881bbe03ff848bb731a5584708153d9bc6dc1d6430579a6a12 =\n\
         3 ok nth 6fe4ff1a836fcb881bbe03ff848bb731a5584708153d9bc6dc1d6430579a6a12 =\n\
         3 ok nth 19d5f57c8e8b3cd760f853bb8d7900d68e10ef02674383de65a9b4d65e419b26 =31\n\
         3 no range 1\n",
    ),
    (
        "versions and places that are not read",
        "commit\n\
         count v2\n\
         nth v2 0\n\
         nth v2 9\n\
         commit\n\
         prune 1\n\
         count v0\n\
         nth v0 0\n\
         nth v0 9\n\
         count p0\n\
         nth p0 0\n\
         nth p8 9\n",
        "1 ok commit 1 E\n\
         1 no future 1\n\
         1 no future 1\n\
         1 no future 1\n\
         2 ok commit 2 E\n\
         3 ok prune 1 1\n\
         3 no retired 1\n\
         3 no retired 1\n\
         3 no retired 1\n\
         3 no nopin\n\
         3 no nopin\n\
         3 no nopin\n",
    ),
    (
        "what is pending is not counted",
        "put 61 =31\n\
         count head\n\
         nth head 0\n\
         fork head\n\
         count head\n\
         land f0\n\
         count head\n\
         nth head 0\n",
        "0 ok pending 1\n\
         0 ok count 0\n\
         0 no range 0\n\
         1 ok fork f0 R\n\
         1 ok count 0\n\
         2 ok land 1 R\n\
         2 ok count 1\n\
         2 ok nth 19d5f57c8e8b3cd760f853bb8d7900d68e10ef02674383de65a9b4d65e419b26 =31\n",
    ),
];

#[test]
fn entries_are_counted_and_found_by_their_place(rt: HostRuntime) -> Result<(), Fail> {
    let alloc = rt.alloc();
    for (what, script, want) in ROWS {
        assert!(rt; tells(&rt, alloc, script, want)?, "{what}");
    }
    Ok(())
}

// Names in the order of their keys, and the keys, by Python's `hashlib`.
const NAMES: &[(&str, &str)] = &[
    (
        "49",
        "039f2c519d87eaa01db07c3792baf082572cbe04e34da945aee4a8aad839e869",
    ),
    (
        "55",
        "0c88d9e184480b7d618274f1e689753c8d7578be79b0501799d878e737477fdd",
    ),
    (
        "4f",
        "0e95e09b66b4de6878d1a6f43ca76124be67de702bc1ad8c018d0b95d50052cb",
    ),
    (
        "4d",
        "0f2e64419cf137a2c5281fe7423b00523c7f5e3fc880abade37c679ec7cbedf9",
    ),
    (
        "46",
        "119b43468ccb9378c1d4b901d40f4d772147e6b2122e7ee39ef6930942f1c8cf",
    ),
    (
        "54",
        "1b8b7b2ebbcb7a948678b350d45b0381213f6a70708e6104cefc8c941ce77792",
    ),
    (
        "50",
        "256facbcee804991bd62d8218e74b2a0aece8b66e25312b5662ef72a19605980",
    ),
    (
        "41",
        "3877b2dc7ce0ef86304da7379bf21e5857001e562fb46cca1b34060c470225fb",
    ),
    (
        "45",
        "4690c1afef542a5a08725617add3af9a2751d9fb02cf0514d4a7977370b9c50a",
    ),
    (
        "56",
        "4ea2b41b49852d3127906eb8f36e7cb467d6ef0c984cc44373c0f2eaaca73dc6",
    ),
    (
        "47",
        "51506c428fadd29534edcdd6e0bdaf7fd9e3ef250eba148db26aa820c8b03f50",
    ),
    (
        "44",
        "6efa00c7715cf548c1672b9b01cbce856cbc67e5d65b2182b9f08969bb6abcc3",
    ),
    (
        "4b",
        "75906df1d8a5c529d8ca7c91d34d30d2b4feda1fb29d7030ae5fc8803aa8abad",
    ),
    (
        "4c",
        "892fc36052eb3e1c0f966e8ff1108f1e6d04a1952ab9264a6b237ac889621fc1",
    ),
    (
        "4e",
        "901dc2f75f2f22d6bb6daa78926fd1f4c5d4e86022569f81f4a2379c3670eeb4",
    ),
    (
        "40",
        "923500f6441159701590100a604278097d8dc488fc1f3d6649afca073b788fe4",
    ),
    (
        "52",
        "9db0de27509b4d17ffd98428e763623feba11dd5eb53ed6a469214a7d361b243",
    ),
    (
        "53",
        "af54d114e9f83f9669e85db42d6e261cdac3a5dc58e303574337cfd84186a530",
    ),
    (
        "43",
        "b9c0d3455b8cdfd58e8acd601bdb83c0835fbce95083ec1e803a8e9434dc6f77",
    ),
    (
        "4a",
        "bc95c2a08f0a78cad3b103913c9d62c7dd959fcd67789f052ab240eddb87c427",
    ),
    (
        "57",
        "c714139c0d1028c5d97bd731698382d1a7032a5f3bca0a8cf9316ee808f75c8a",
    ),
    (
        "42",
        "caf1a2b56b4401819c2db0a961942c0008aedef8cef3c5d288c22e118ab62140",
    ),
    (
        "51",
        "dca4312e83154dbba96717f3c6860af5dcc4687aac190d931b03723414a3140f",
    ),
    (
        "48",
        "df93930c8dd3a18d2b8f506d5936c327d615f320f282cbf5b0d334f1243ba507",
    ),
];

// The root of the map in which each of them is its own value.
const ROOT: &str = "81cec345d0f1f7462f7068a504cc53d6070829433badead484d3e09ca90cde05";

// Puts each name, commits, and asks for each place.
fn script_of(alloc: Global) -> Result<Vec<u8>, Fail> {
    let mut script = Vec::new(alloc);
    for (name, _) in NAMES {
        let line = format!(in alloc; "put {name} ={name}\n")?;
        script.extend_from_slice(line.as_bytes())?;
    }
    script.extend_from_slice(b"commit\ncount head\n")?;
    add_places(alloc, &mut script)?;
    Ok(script)
}

fn add_places(alloc: Global, script: &mut Vec<u8>) -> Result<(), Fail> {
    for place in 0..NAMES.len() {
        let line = format!(in alloc; "nth head {place}\n")?;
        script.extend_from_slice(line.as_bytes())?;
    }
    Ok(())
}

// The replies to it.
fn replies(alloc: Global) -> Result<Vec<u8>, Fail> {
    let mut text = Vec::new(alloc);
    for count in 1..=NAMES.len() {
        let line = format!(in alloc; "0 ok pending {count}\n")?;
        text.extend_from_slice(line.as_bytes())?;
    }
    let line = format!(in alloc; "1 ok commit 1 {ROOT}\n1 ok count 24\n")?;
    text.extend_from_slice(line.as_bytes())?;
    add_entries(alloc, &mut text)?;
    Ok(text)
}

fn add_entries(alloc: Global, text: &mut Vec<u8>) -> Result<(), Fail> {
    for (name, key) in NAMES {
        let line = format!(in alloc; "1 ok nth {key} ={name}\n")?;
        text.extend_from_slice(line.as_bytes())?;
    }
    Ok(())
}

#[test]
fn each_place_has_the_next_key(rt: HostRuntime) -> Result<(), Fail> {
    let alloc = rt.alloc();
    let script = script_of(alloc)?;
    let want = replies(alloc)?;
    is_answered(&rt, alloc, &script, &want)
}
